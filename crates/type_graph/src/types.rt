//! Types by numbers.
//!
//! A type is a variable, or a type constructor with its arguments; equal types are linked, so that a
//! part that several types share stands there once. The first types are `int`, `bool`, `char`,
//! `string`, `unit` and `exn`, under the numbers of their rows.

ghost use Rattle.std.specs.Prelude.{◌≡◌, true, false, length, IfOk, OnOk};
ghost use Rattle.type_graph.specs.Graph.{added, applied, arguments_of, argument_of, built_in, built_in_node, form_of, has_room, node_at, root, set_node, variable_added};

use crate::builtin_types::{BOOL, CHAR, EXN, INT, STRING, UNIT};
use crate::form::Form;
use crate::parts::part_of;
use crate::stack::Stack;
use std::alloc::{AllocError, Global};
use std::marker::Model;

/// A type. It is outer where a name of an earlier item that isn't generalised may have it as a part.
#[derive(Clone, Copy)]
pub struct Node {
    pub form: Form,
    pub is_outer: bool,
    /// No row of links to it is longer.
    pub rank: u32,
    /// The number of its latest copy, if it has one.
    pub copy: u32,
}

/// How many types there may be, and how many arguments they may have together. A further one is
/// refused as memory is: generalised names can ask for exponentially many.
pub(crate) const MOST: usize = 0x200_0000;

/// A longer row of links isn't there, since a row of n links wants 2^n types.
const MOST_LINKS: u32 = 32;

/// Nothing is known of a new type.
pub(crate) const UNKNOWN: Node = Node {
    form: Form::Variable,
    is_outer: false,
    rank: 0,
    copy: 0,
};

/// The types of a program. All parts of an outer type are outer, but for those that the item at hand
/// gave to outer variables: these are outer from the end of the item on.
#[derive(Drop)]
pub struct Types {
    pub(crate) alloc: Global,
    pub(crate) nodes: Vec<Node>,
    pub(crate) arguments: Vec<u32>,
    /// What the item at hand gave to outer variables.
    pub(crate) given: Stack<u32>,
}

impl Model for Types {
    ghost use Rattle.type_graph.specs.Graph.{Graph};

    ghost Value = { Graph };

    ghost view = { λ t. record { nodes = t.nodes.items; arguments = t.arguments.items; given = t.given } };
}

// A built-in type without arguments.
fn built_in(constructor: u32) -> Node
    ensures { result ≡ built_in_node constructor }
{
    Node {
        form: Form::Applied {
            constructor,
            first: 0,
            count: 0,
        },
        is_outer: true,
        ..UNKNOWN
    }
}

impl Types {
    /// The six built-in types without arguments.
    pub fn new(alloc: Global) -> Result<Types, AllocError>
        ensures { IfOk result (λ types. types ≡ built_in) }
    {
        let first = [
            built_in(INT),
            built_in(BOOL),
            built_in(CHAR),
            built_in(STRING),
            built_in(UNIT),
            built_in(EXN),
        ];
        Ok(Types {
            alloc,
            nodes: Vec::from_slice(alloc, &first)?,
            arguments: Vec::new(alloc),
            given: Stack::new(alloc),
        })
    }

    /// What the types take their memory from.
    pub fn alloc(&self) -> Global {
        self.alloc
    }

    /// How many types there are.
    pub fn len(&self) -> usize
        ensures { result ≡ length self.now.nodes }
    {
        self.nodes.len()
    }

    /// Whether there are no more types and arguments than there may be, as is always so.
    pub fn has_room(&self) -> bool
        ensures { result ≡ has_room self.now }
    {
        self.nodes.len() <= MOST && self.arguments.len() <= 2 * MOST
    }

    /// A new type.
    pub(crate) fn push(&mut self, node: Node) -> Result<u32, AllocError>
        ensures number { IfOk result (λ n. n ≡ length self.old.nodes) }
        ensures ok { OnOk result (self.new ≡ added node self.old) }
    {
        let number = self.nodes.len();
        if number >= MOST {
            return Err(AllocError);
        }
        self.nodes.push(node)?;
        Ok(number as u32)
    }

    fn push_applied(
        &mut self,
        constructor: u32,
        arguments: &[u32],
        is_outer: bool,
    ) -> Result<u32, AllocError>
        ensures number { IfOk result (λ n. n ≡ length self.old.nodes) }
        ensures ok { OnOk result (self.new ≡ applied constructor arguments.now is_outer self.old) }
    {
        let (first, count) = (self.arguments.len(), arguments.len());
        if first >= MOST || count >= MOST {
            return Err(AllocError);
        }
        self.arguments.extend_from_slice(arguments)?;
        let form = Form::Applied {
            constructor,
            first: first as u32,
            count: count as u32,
        };
        self.push(Node {
            form,
            is_outer,
            ..UNKNOWN
        })
    }

    /// A new variable.
    pub fn variable(&mut self) -> Result<u32, AllocError>
        ensures number { IfOk result (λ n. n ≡ length self.old.nodes) }
        ensures ok { OnOk result (self.new ≡ variable_added self.old) }
    {
        self.push(UNKNOWN)
    }

    /// A type constructor with its arguments.
    pub fn apply(&mut self, constructor: u32, arguments: &[u32]) -> Result<u32, AllocError>
        ensures number { IfOk result (λ n. n ≡ length self.old.nodes) }
        ensures ok { OnOk result (self.new ≡ applied constructor arguments.now false self.old) }
    {
        self.push_applied(constructor, arguments, false)
    }

    /// A type constructor with arguments in which no variable is. All items may share it.
    pub fn apply_closed(&mut self, constructor: u32, arguments: &[u32]) -> Result<u32, AllocError>
        ensures number { IfOk result (λ n. n ≡ length self.old.nodes) }
        ensures ok { OnOk result (self.new ≡ applied constructor arguments.now true self.old) }
    {
        self.push_applied(constructor, arguments, true)
    }

    /// What stands at a number.
    pub(crate) fn node(&self, n: u32) -> Node
        ensures { result ≡ node_at self.now.nodes n }
    {
        match self.nodes.get(n as usize) {
            Some(node) => *node,
            None => UNKNOWN,
        }
    }

    /// Puts another node at a number.
    pub(crate) fn set(&mut self, n: u32, node: Node)
        ensures { self.new ≡ set_node n node self.old }
    {
        if (n as usize) < self.nodes.len() {
            self.nodes[n as usize] = node;
        }
    }

    /// The last of the links from a type: the number by which all types that are equal to it go.
    pub fn root(&self, n: u32) -> u32
        ensures { result ≡ root self.now.nodes n }
    {
        let mut at = n;
        for _links in 0..MOST_LINKS {
            let Some(next) = self.node(at).form.link() else {
                return at;
            };
            at = next;
        }
        at
    }

    /// What is known of a type. It is no link.
    pub fn form(&self, n: u32) -> Form
        ensures { result ≡ form_of self.now.nodes n }
    {
        self.node(self.root(n)).form
    }

    /// The arguments of a form.
    pub fn arguments(&self, form: Form) -> &[u32]
        ensures { result.now ≡ arguments_of self.now.arguments form }
    {
        match form {
            Form::Applied { first, count, .. } => {
                part_of(self.arguments.as_slice(), first as usize, count as usize)
            }
            _ => &[],
        }
    }

    /// The argument of a form at a place, from 0.
    pub fn argument(&self, form: Form, place: usize) -> Option<u32>
        ensures { result ≡ argument_of self.now.arguments form place }
    {
        self.arguments(form).get(place).copied()
    }
}
