//! Reductions that are written by hand, with ample memory.

use crate::{Reduction, Rule, build};
use ml_lexer::lex;
use ml_syntax::{Binding, Item, Node, depth};
use std::test::Fail;

// A text, the steps of its parse, and what they build: how many nodes and items, and the depth.
struct Built {
    text: &'static [u8],
    steps: &'static [(Rule, usize, usize)],
    nodes: usize,
    items: usize,
    depth: u64,
}

const BUILT: &[Built] = &[
    Built {
        text: b"",
        steps: &[],
        nodes: 0,
        items: 0,
        depth: 0,
    },
    Built {
        text: b"type 'a t = A | B of 'a",
        steps: &[
            (Rule::Word, 1, 0),
            (Rule::Word, 2, 0),
            (Rule::TypeHead, 2, 2),
            (Rule::Word, 4, 0),
            (Rule::PlainConstructor, 4, 0),
            (Rule::Word, 6, 0),
            (Rule::TypeVariable, 8, 0),
            (Rule::ConstructorOf, 6, 0),
            (Rule::VariantType, 2, 2),
            (Rule::TypesItem, 0, 1),
        ],
        nodes: 1,
        items: 1,
        depth: 1,
    },
    Built {
        text: b"match x with M.A -> 1 | _ when a -> 2",
        steps: &[
            (Rule::Word, 1, 0),
            (Rule::Variable, 1, 1),
            (Rule::Word, 3, 0),
            (Rule::Word, 5, 0),
            (Rule::PatternConstructor, 3, 2),
            (Rule::Constant, 7, 0),
            (Rule::ValueClause, 6, 0),
            (Rule::PatternAny, 9, 0),
            (Rule::Word, 11, 0),
            (Rule::Variable, 11, 1),
            (Rule::Constant, 13, 0),
            (Rule::GuardedClause, 12, 0),
            (Rule::Match, 0, 2),
            (Rule::ExpressionItem, 0, 0),
        ],
        nodes: 7,
        items: 1,
        depth: 2,
    },
    Built {
        text: b"match_with f x {effc = function E -> Some (fun k -> k) | _ -> None}",
        steps: &[
            (Rule::Word, 0, 0),
            (Rule::LongName, 0, 1),
            (Rule::Word, 1, 0),
            (Rule::Variable, 1, 1),
            (Rule::Word, 2, 0),
            (Rule::Variable, 2, 1),
            (Rule::Word, 4, 0),
            (Rule::Word, 7, 0),
            (Rule::PatternConstructor, 7, 1),
            (Rule::PatternName, 12, 0),
            (Rule::Word, 14, 0),
            (Rule::Variable, 14, 1),
            (Rule::Resumption, 9, 0),
            (Rule::EffectRule, 8, 0),
            (Rule::PatternAny, 17, 0),
            (Rule::FunctionCases, 6, 1),
            (Rule::NamedPart, 4, 0),
            (Rule::Handler, 3, 1),
            (Rule::Handle, 0, 0),
            (Rule::ExpressionItem, 0, 0),
        ],
        nodes: 10,
        items: 1,
        depth: 7,
    },
];

// Steps that take more than there is, or name a token that isn't there, of a text of one token.
const REFUSED: &[(Rule, usize, usize)] = &[
    (Rule::Word, 1, 0),
    (Rule::Bracket, 0, 0),
    (Rule::List, 0, 1),
    (Rule::Variable, 0, 1),
    (Rule::OpenItem, 0, 0),
];

fn reduction(step: &(Rule, usize, usize)) -> Reduction {
    let (rule, token, count) = *step;
    Reduction { rule, token, count }
}

#[test]
fn builds_worked_texts(rt: HostRuntime) -> Result<(), Fail> {
    for case in BUILT {
        assert!(rt; case.text.len() <= 100);
        let tokens = lex(rt.alloc(), case.text)?;
        let mut reductions = Vec::new(rt.alloc());
        for step in case.steps {
            reductions.push(reduction(step))?;
        }
        let prog = build(rt.alloc(), &tokens, reductions.as_slice())?;
        assert_eq!(rt; prog.nodes.len(), case.nodes, "of {:?}", case.text);
        assert_eq!(rt; prog.items.len(), case.items, "of {:?}", case.text);
        assert_eq!(rt; depth(&prog), case.depth, "of {:?}", case.text);
    }
    Ok(())
}

#[test]
fn refuses_what_does_not_fit(rt: HostRuntime) -> Result<(), Fail> {
    let tokens = lex(rt.alloc(), b"x")?;
    for step in REFUSED {
        let reductions = [reduction(step)];
        assert!(rt; build(rt.alloc(), &tokens, &reductions).is_err());
    }
    Ok(())
}

// Whether the nodes are those of `f 1`.
fn are_of_a_call(nodes: &[Node]) -> bool {
    match nodes {
        [
            Node::Variable { name },
            Node::Constant { place, literal },
            Node::Apply {
                function,
                arguments,
            },
        ] => {
            name.last.text.as_slice() == b"f".as_slice()
                && place.column == 11
                && literal.text.as_slice() == b"1".as_slice()
                && *function == 0
                && arguments.as_slice() == [1].as_slice()
        }
        _ => false,
    }
}

// Whether the items are `let x =` and this node.
fn bind_x(items: &[Item], node: u32) -> bool {
    match items {
        [
            Item::Let {
                place: _,
                is_recursive,
                bindings,
            },
        ] => match bindings.as_slice() {
            [
                Binding::Named {
                    name,
                    parameters,
                    annotation: None,
                    body,
                },
            ] => {
                !*is_recursive
                    && name.text.as_slice() == b"x".as_slice()
                    && parameters.len() == 0
                    && *body == node
            }
            _ => false,
        },
        _ => false,
    }
}

#[test]
fn builds_a_binding(rt: HostRuntime) -> Result<(), Fail> {
    let tokens = lex(rt.alloc(), b"let x = f 1")?;
    let reductions = [
        reduction(&(Rule::Word, 1, 0)),
        reduction(&(Rule::Word, 3, 0)),
        reduction(&(Rule::Variable, 3, 1)),
        reduction(&(Rule::Constant, 4, 0)),
        reduction(&(Rule::Apply, 3, 1)),
        reduction(&(Rule::NamedBinding, 1, 0)),
        reduction(&(Rule::LetItem, 0, 1)),
    ];
    let prog = build(rt.alloc(), &tokens, &reductions)?;
    assert!(rt; are_of_a_call(prog.nodes.as_slice()));
    assert!(rt; bind_x(prog.items.as_slice(), 2));
    Ok(())
}
