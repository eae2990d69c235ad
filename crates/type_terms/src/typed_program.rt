//! A program, with the types at which it compares.

ghost use Rattle.std.specs.Prelude.{◌≡◌};

use crate::base_type::BaseTy;
use effect_meaning::{Core, Sequence};
use std::marker::Model;

/// A program in Core, and the type of each of its comparisons in the order of the text, as inference
/// gave them.
#[derive(Drop)]
pub struct Typed {
    core: Core,
    compared: Sequence<BaseTy>,
}

impl Model for Typed {
    ghost use Rattle.type_terms.specs.TypedParts.{TypedParts};

    ghost Value = { TypedParts };

    ghost view = { λ t. record { core = t.core; compared = t.compared } };
}

impl Typed {
    /// A program with the types of its comparisons. It takes no memory.
    pub fn finish(core: Core, compared: Sequence<BaseTy>) -> Typed
        ensures { result ≡ record { core = core; compared = compared } }
    {
        Typed { core, compared }
    }

    /// The program, to be read.
    pub fn core(&self) -> &Core
        ensures { result.now ≡ self.now.core }
    {
        &self.core
    }

    /// The types of the comparisons, in the order of the text.
    pub fn compared(&self) -> &[BaseTy]
        ensures { result.now ≡ self.now.compared }
    {
        self.compared.as_slice()
    }

    /// The program alone.
    pub fn into_core(self) -> Core
        ensures { result ≡ self.core }
    {
        let Typed { core, compared: _ } = self;
        core
    }
}

#[cfg(test)]
mod tests {
    use super::*;
    use effect_meaning::CoreArena;
    use std::test::Fail;

    #[test]
    fn keeps_what_it_is_given(rt: HostRuntime) -> Result<(), Fail> {
        let alloc = rt.alloc();
        let file = Sequence::from_vec(Vec::from_slice(alloc, b"a.ml")?);
        let core = Core::finish(CoreArena::new(alloc, file));
        let compared = Sequence::from_vec(Vec::from_slice(alloc, &[BaseTy::Int, BaseTy::Str])?);
        let typed = Typed::finish(core, compared);
        assert_eq!(rt; typed.compared().len(), 2);
        assert_eq!(rt; typed.compared()[1], BaseTy::Str);
        assert_eq!(rt; typed.core().arena().file(), b"a.ml".as_slice());
        let core = typed.into_core();
        assert_eq!(rt; core.arena().terms().len(), 0);
        Ok(())
    }
}
