//! The walk over a program that joins the types that its forms make equal.
//!
//! The walk keeps what is still to be done on a stack of its own, so that no program is too deep for
//! it.

ghost use Rattle.std.specs.Prelude.{◌≡◌, OnOk, IfOk};
ghost use Rattle.ml_infer.specs.Inference.{begun, copied_type, equated, given_back, gives, name_noted, new_name, new_variable, of_one_type, one_type, pattern_place, refused, taken, term_place, type_of_name, variable_noted};
ghost use Rattle.ml_infer.specs.Verdict.{is_complete};

use crate::known::Known;
use crate::members::{Members, fields_of, variants_of};
use crate::tasks::Task;
use effect_meaning::CoreArena;
use fx_base::Place;
use std::alloc::{AllocError, Global};
use type_graph::{Stack, Types};

/// What is known of a name.
#[derive(Clone, Copy)]
pub enum NameType {
    /// Its one type, and the pattern that binds it: both sides of an or-pattern bind one name.
    One { found: u32, pattern: u64 },
    /// The type of a generalised name, of which each use takes a copy.
    Generalised(u32),
}

/// The type of a type variable, and the item in which it has it.
#[derive(Clone, Copy)]
pub struct KnownVariable {
    pub item: usize,
    pub found: u32,
}

/// A comparison: the item and the place where it stands, and the type at which it compares.
#[derive(Clone, Copy)]
pub struct Compared {
    pub item: usize,
    pub place: Place,
    pub found: u32,
}

/// A written type that was read, and whether no variable is in it.
#[derive(Clone, Copy)]
pub struct Read {
    pub found: u32,
    pub is_closed: bool,
}

/// Why a walk ended before the last item.
#[derive(Clone, Copy)]
pub enum End {
    /// A type fault.
    Fault(Place),
    /// So many equations were to be taken and no more.
    Stopped,
}

/// The walk.
#[derive(Drop)]
pub struct Inference {
    pub types: Types,
    /// The constructors and the fields of each type.
    pub variants: Members,
    pub fields: Members,
    /// What written types were read as.
    pub read: Known<Read>,
    /// The item at hand, and the type variables that are written in it.
    pub item: usize,
    pub variables: Known<KnownVariable>,
    pub names: Known<NameType>,
    /// The types of the names that the pattern at hand binds, and its number.
    pub bound: Stack<u32>,
    pub pattern: u64,
    /// The types of the terms and patterns whose equations are taken, for the forms round them.
    pub given: Stack<u32>,
    /// The number of the last record expression that named each field, and of the last of all.
    pub naming: Known<u64>,
    pub records: u64,
    /// The comparisons, and the types of the top-level definitions, the last first.
    pub comparisons: Stack<Compared>,
    pub definitions: Stack<u32>,
    pub tasks: Stack<Task>,
    /// How many equations were taken without a clash, and how many may be.
    pub equations: u64,
    pub most: u64,
    /// Where the last of them stands.
    pub last: Place,
    pub end: Option<End>,
}

impl Inference {
    /// The walk over a program that takes at most so many equations.
    pub fn new(alloc: Global, arena: &CoreArena, most: u64) -> Result<Inference, AllocError>
        ensures { IfOk result (λ walk. walk ≡ begun arena.now most) }
    {
        Ok(Inference {
            types: Types::new(alloc)?,
            variants: variants_of(alloc, arena)?,
            fields: fields_of(alloc, arena)?,
            read: Known::new(alloc),
            item: 0,
            variables: Known::new(alloc),
            names: Known::new(alloc),
            bound: Stack::new(alloc),
            pattern: 0,
            given: Stack::new(alloc),
            naming: Known::new(alloc),
            records: 0,
            comparisons: Stack::new(alloc),
            definitions: Stack::new(alloc),
            tasks: Stack::new(alloc),
            equations: 0,
            most,
            last: Place { line: 1, column: 1 },
            end: None,
        })
    }

    /// Whether the walk took all equations and steps that it had to, and had room for its types. It isn't
    /// so where there were more of them than can be counted.
    pub fn is_complete(&self) -> bool
        ensures { result ≡ is_complete self.now }
    {
        !matches!(self.end, Some(End::Stopped)) && self.types.has_room()
    }

    /// Ends the walk with a type fault, unless it has ended.
    pub fn refuse(&mut self, place: Place)
        ensures { self.new ≡ refused place self.old }
    {
        if self.end.is_none() {
            self.end = Some(End::Fault(place));
        }
    }

    /// Takes the equation of two types, which stands at a place.
    pub fn equate(&mut self, place: Place, a: u32, b: u32) -> Result<(), AllocError>
        ensures { OnOk result (self.new ≡ equated place a b self.old) }
    {
        if self.end.is_some() {
            return Ok(());
        }
        if self.equations >= self.most {
            self.end = Some(End::Stopped);
            return Ok(());
        }
        if self.types.unify(a, b)? {
            self.equations = self.equations.saturating_add(1);
            self.last = place;
        } else {
            self.end = Some(End::Fault(place));
        }
        Ok(())
    }

    /// A new type of which nothing is known.
    pub fn variable(&mut self) -> Result<u32, AllocError>
        ensures { IfOk result (λ found. new_variable self.old ≡ gives found self.new) }
    {
        self.types.variable()
    }

    /// Gives a type to the form round the one at hand.
    pub fn give(&mut self, found: u32) -> Result<(), AllocError>
        ensures { OnOk result (self.new ≡ given_back found self.old) }
    {
        self.given.push(found)
    }

    /// Takes the type that was given last.
    pub fn take(&mut self) -> Result<u32, AllocError>
        ensures { IfOk result (λ found. taken self.old ≡ gives found self.new) }
    {
        match self.given.pop() {
            Some(found) => Ok(found),
            None => self.variable(),
        }
    }

    /// Where a term stands.
    pub fn term_place(&self, arena: &CoreArena, n: u32) -> Place
        ensures { result ≡ term_place arena.now n self.now }
    {
        match arena.terms().get(n as usize) {
            Some(node) => node.place,
            None => self.last,
        }
    }

    /// Where a pattern stands.
    pub fn pattern_place(&self, arena: &CoreArena, n: u32) -> Place
        ensures { result ≡ pattern_place arena.now n self.now }
    {
        match arena.patterns().get(n as usize) {
            Some(node) => node.place,
            None => self.last,
        }
    }

    /// From here on this is known of a name.
    pub fn set_name(&mut self, name: u32, known: NameType) -> Result<(), AllocError>
        ensures { OnOk result (self.new ≡ name_noted name known self.old) }
    {
        self.names.set(name, known)
    }

    /// From here on a name has this one type.
    pub fn set_one(&mut self, name: u32, found: u32) -> Result<(), AllocError>
        ensures { OnOk result (self.new ≡ of_one_type name found self.old) }
    {
        let pattern = self.pattern;
        self.set_name(name, NameType::One { found, pattern })
    }

    /// A new name, of a type of which nothing is known yet.
    pub fn new_name(&mut self, name: u32) -> Result<u32, AllocError>
        ensures { IfOk result (λ found. new_name name self.old ≡ gives found self.new) }
    {
        let found = self.variable()?;
        self.set_one(name, found)?;
        Ok(found)
    }

    // A copy of the type of a generalised name. What the item gave to outer variables so far is outer
    // from here on, so that the copy shares it.
    fn copy_type(&mut self, found: u32) -> Result<u32, AllocError>
        ensures { IfOk result (λ copy. copied_type found self.old ≡ gives copy self.new) }
    {
        self.types.end_item()?;
        self.types.copy(found)
    }

    /// The type of a use of a name: its own, or a copy.
    pub fn name_type(&mut self, name: u32) -> Result<u32, AllocError>
        ensures { IfOk result (λ found. type_of_name name self.old ≡ gives found self.new) }
    {
        match self.names.get(name) {
            Some(NameType::One { found, .. }) => Ok(found),
            Some(NameType::Generalised(found)) => self.copy_type(found),
            None => self.new_name(name),
        }
    }

    /// The type of a name that isn't generalised.
    pub fn one_type(&mut self, name: u32) -> Result<u32, AllocError>
        ensures { IfOk result (λ found. one_type name self.old ≡ gives found self.new) }
    {
        match self.names.get(name) {
            Some(NameType::One { found, .. }) => Ok(found),
            _ => self.new_name(name),
        }
    }

    /// From here on a type variable of the item stands for this type.
    pub fn set_variable(&mut self, v: u32, found: u32) -> Result<(), AllocError>
        ensures { OnOk result (self.new ≡ variable_noted v found self.old) }
    {
        let item = self.item;
        self.variables.set(v, KnownVariable { item, found })
    }
}
