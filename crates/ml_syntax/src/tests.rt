//! Calls with ample memory: the roles of tokens, and the depth and the text of a small program.

use crate::{
    BinaryOperator, Item, LongName, Name, Node, Nodes, Prog, Role, Sequence, Text, depth, print,
    role_of,
};
use fx_base::Place;
use ml_lexer::lex;
use std::alloc::{AllocError, Global};
use std::test::Fail;

#[test]
fn tells_roles(rt: HostRuntime) -> Result<(), Fail> {
    let text = b"match_with try_with f M 'a 1 - 0x4000_0000_0000_0000 * :: lazy";
    let roles = [
        Role::TakesHandler,
        Role::TakesEffects,
        Role::Lower,
        Role::Upper,
        Role::TypeVariable,
        Role::Integer,
        Role::Minus,
        Role::LeastInteger,
        Role::Star,
        Role::DoubleColon,
        Role::Other,
    ];
    let tokens = lex(rt.alloc(), text)?;
    assert_eq!(rt; tokens.len(), 11);
    for i in 0..11usize {
        assert_eq!(rt; role_of(&tokens.view(i)), roles[i]);
    }
    Ok(())
}

const PLACE: Place = Place { line: 1, column: 1 };

fn variable(alloc: Global) -> Result<Node, AllocError> {
    Ok(Node::Variable {
        name: LongName {
            place: PLACE,
            path: Sequence::empty(alloc),
            last: Name {
                place: PLACE,
                text: Text::new(alloc, b"x")?,
            },
        },
    })
}

#[test]
fn measures_and_prints(rt: HostRuntime) -> Result<(), Fail> {
    let alloc = rt.alloc();
    let mut nodes = Nodes::new(alloc);
    nodes.push(variable(alloc)?)?;
    nodes.push(Node::Bracket {
        place: PLACE,
        inner: 0,
    })?;
    nodes.push(variable(alloc)?)?;
    nodes.push(Node::Binary {
        place: PLACE,
        operator: BinaryOperator::Add,
        left: 1,
        right: 2,
    })?;
    assert!(rt;
        nodes
            .push(Node::Bracket {
                place: PLACE,
                inner: 4
            })
            .is_err(),
        "no node has this number"
    );
    assert_eq!(rt; nodes.last_number(), 3);
    let mut items = Sequence::empty(alloc);
    items.push(Item::Expression {
        place: PLACE,
        expression: 3,
    })?;
    assert_eq!(rt; items.len(), 1);
    let prog = Prog { nodes, items };
    assert_eq!(rt; prog.nodes.as_slice().len(), 4);
    assert_eq!(rt; depth(&prog), 3);
    let text = print(alloc, &prog)?;
    assert_eq!(rt; text.as_slice(), b"( x ) + x ;;\n".as_slice());
    Ok(())
}
