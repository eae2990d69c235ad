use crate::checked::are_start_words;
use crate::records::push_bytes;
use crate::regions::Regions;
use crate::start_words::start_words;
use fx_base::Settings;
use rv_model::StartWord;
use std::test::Fail;

#[test]
fn bytes_of_words(rt: HostRuntime) -> Result<(), Fail> {
    let mut words = Vec::new(rt.alloc());
    push_bytes(&mut words, b"abcdefghi")?;
    assert_eq!(rt; words.as_slice(), [0x6867_6665_6463_6261, 0x69].as_slice());
    Ok(())
}

#[test]
fn words_at_the_start(rt: HostRuntime) -> Result<(), Fail> {
    let settings = Settings::usual();
    let regions = Regions::new(&settings, 2, 0)?;
    let start = start_words(rt.alloc(), &settings, &regions, &[0, 5])?;
    assert_eq!(rt; start.len(), 17);
    let literal = StartWord {
        at: 144 + 131_072 + 1,
        value: 5,
    };
    assert_eq!(rt; start.as_slice().get(4).copied(), Some(literal));
    assert!(rt; are_start_words(&start, regions.words));
    assert!(rt; !are_start_words(&start, 100));
    Ok(())
}
