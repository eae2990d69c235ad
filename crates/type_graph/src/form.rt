//! What is known of a type.

ghost use Rattle.std.specs.Prelude.{◌≡◌};
ghost use Rattle.type_graph.specs.Graph.{is_of, is_variable, link_of};

/// What is known of a type.
#[derive(Clone, Copy)]
pub enum Form {
    /// Nothing yet.
    Variable,
    /// That it is equal to another one.
    Link(u32),
    /// Its type constructor, and where its arguments stand among those of all types.
    Applied {
        constructor: u32,
        first: u32,
        count: u32,
    },
}

impl Form {
    /// Whether it is this type constructor with so many arguments.
    pub fn is_of(self, row: u32, arguments: u32) -> bool
        ensures { result ≡ is_of self row arguments }
    {
        match self {
            Form::Applied {
                constructor,
                count,
                ..
            } => constructor == row && count == arguments,
            _ => false,
        }
    }

    /// Whether nothing is known.
    pub fn is_variable(self) -> bool
        ensures { result ≡ is_variable self }
    {
        matches!(self, Form::Variable)
    }

    /// The type that it is equal to.
    pub fn link(self) -> Option<u32>
        ensures { result ≡ link_of self }
    {
        match self {
            Form::Link(n) => Some(n),
            _ => None,
        }
    }
}
