//! Sets of the values that a function keeps: its slots and its closure.

/// How many slots a set tells apart. A function has at most 258; a loop that isn't in registers alone
/// may name more for a while.
pub const MOST_SLOTS: u32 = 320;

/// Slots below [`MOST_SLOTS`], and whether the function's closure is among them. Further slots are
/// counted as held: code for a term that holds such a slot fits nowhere.
#[derive(Clone, Copy)]
pub struct SlotSet {
    words: [u64; 5],
    pub closure: bool,
}

impl SlotSet {
    /// No slot.
    pub const EMPTY: SlotSet = SlotSet {
        words: [0; 5],
        closure: false,
    };

    /// The closure alone.
    pub const CLOSURE: SlotSet = SlotSet {
        words: [0; 5],
        closure: true,
    };

    /// One slot.
    pub fn one(slot: u32) -> SlotSet {
        let mut set = SlotSet::EMPTY;
        set.insert(slot);
        set
    }

    /// The slots from one on, so many of them.
    pub fn range(first: u32, count: u32) -> SlotSet {
        let mut set = SlotSet::EMPTY;
        for number in 0..count {
            set.insert(first.saturating_add(number));
        }
        set
    }

    /// Whether the slot is held.
    pub fn has(&self, slot: u32) -> bool {
        match self.words.get((slot / 64) as usize) {
            Some(word) => *word >> (slot % 64) & 1 == 1,
            None => false,
        }
    }

    /// Puts a slot in.
    pub fn insert(&mut self, slot: u32) {
        if let Some(word) = self.words.get_mut((slot / 64) as usize) {
            *word |= 1 << (slot % 64);
        }
    }

    /// Takes a slot out.
    pub fn remove(&mut self, slot: u32) {
        if let Some(word) = self.words.get_mut((slot / 64) as usize) {
            *word &= !(1 << (slot % 64));
        }
    }

    /// Both sets together.
    pub fn with(&self, other: &SlotSet) -> SlotSet {
        let mut words = [0; 5];
        for (word, (mine, theirs)) in words
            .iter_mut()
            .zip(self.words.iter().zip(other.words.iter()))
        {
            *word = *mine | *theirs;
        }
        SlotSet {
            words,
            closure: self.closure || other.closure,
        }
    }

    /// What both sets have.
    pub fn and(&self, other: &SlotSet) -> SlotSet {
        let mut words = [0; 5];
        for (word, (mine, theirs)) in words
            .iter_mut()
            .zip(self.words.iter().zip(other.words.iter()))
        {
            *word = *mine & *theirs;
        }
        SlotSet {
            words,
            closure: self.closure && other.closure,
        }
    }

    /// What the other set doesn't have.
    pub fn without(&self, other: &SlotSet) -> SlotSet {
        let mut words = [0; 5];
        for (word, (mine, theirs)) in words
            .iter_mut()
            .zip(self.words.iter().zip(other.words.iter()))
        {
            *word = *mine & !*theirs;
        }
        SlotSet {
            words,
            closure: self.closure && !other.closure,
        }
    }

    /// The slots below this one, and the closure.
    pub fn below(&self, slot: u32) -> SlotSet {
        let mut set = *self;
        for (number, word) in set.words.iter_mut().enumerate() {
            let first = 64 * number as u32;
            if slot <= first {
                *word = 0;
            } else if slot - first < 64 {
                *word &= (1 << (slot - first)) - 1;
            }
        }
        set
    }

    /// The first slot.
    pub fn first(&self) -> Option<u32> {
        for (number, word) in self.words.iter().enumerate() {
            if *word != 0 {
                return Some((64 * number as u32).saturating_add(word.trailing_zeros()));
            }
        }
        None
    }

    /// How many values there are, the closure among them.
    pub fn len(&self) -> u32 {
        let mut count = u32::from(self.closure);
        for word in &self.words {
            count = count.saturating_add(word.count_ones());
        }
        count
    }

    /// Whether there is none.
    pub fn is_empty(&self) -> bool {
        self.len() == 0
    }
}
