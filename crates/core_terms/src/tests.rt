//! Texts and their breaches of the rules on names, whose places are those that a reference
//! implementation gives; and the prelude's table, which is the tree of its text.

use crate::elaborate;
use fx_base::{Place, Refusal};
use ml_lexer::lex;
use ml_parser::parse;
use ml_syntax::{Prog, print};
use prelude_ml::prelude;
use prelude_tree::prelude_program;
use std::alloc::Global;
use std::test::Fail;

// A text, and the line and the column of its first breach, if there is one.
struct Case {
    text: &'static str,
    breach: Option<(u32, u32)>,
}

const CASES: &[Case] = &[
    Case {
        text: "let () = print_int x",
        breach: Some((1, 20)),
    },
    Case {
        text: "let x = 1 let y = x",
        breach: None,
    },
    Case {
        text: "let f x = x in f y",
        breach: Some((1, 18)),
    },
    Case {
        text: "let rec f x = g x and g x = f x",
        breach: None,
    },
    Case {
        text: "let f x = g x and g x = f x",
        breach: Some((1, 11)),
    },
    Case {
        text: "let x = 1 and y = x",
        breach: Some((1, 19)),
    },
    Case {
        text: "let () = list_rev []",
        breach: Some((1, 10)),
    },
    Case {
        text: "let () = ignore (List.rev [])",
        breach: None,
    },
    Case {
        text: "let () = ignore (List.foo [])",
        breach: Some((1, 18)),
    },
    Case {
        text: "let () = M.f 1",
        breach: Some((1, 10)),
    },
    Case {
        text: "let () = perform 1",
        breach: Some((1, 10)),
    },
    Case {
        text: "open Effect let () = ignore perform",
        breach: None,
    },
    Case {
        text: "let () = raise Foo",
        breach: Some((1, 16)),
    },
    Case {
        text: "exception Foo let () = raise Foo",
        breach: None,
    },
    Case {
        text: "let f r = r.x",
        breach: Some((1, 13)),
    },
    Case {
        text: "type t = { x : int } let f r = r.x",
        breach: None,
    },
    Case {
        text: "type t = { x : int } let r = { x = 1; y = 2 }",
        breach: Some((1, 39)),
    },
    Case {
        text: "let f (x : foo) = x",
        breach: Some((1, 12)),
    },
    Case {
        text: "let f (x : int Queue.t) = x",
        breach: None,
    },
    Case {
        text: "let f (x : int queue_t) = x",
        breach: Some((1, 16)),
    },
    Case {
        text: "open Deep",
        breach: Some((1, 6)),
    },
    Case {
        text: "open Effect open Deep let f k = continue k ()",
        breach: None,
    },
    Case {
        text: "let f k = Deep.continue k ()",
        breach: Some((1, 11)),
    },
    Case {
        text: "let f k = Effect.Deep.continue k ()",
        breach: None,
    },
    Case {
        text: "let q = { front = []; back = []; size = 0 }",
        breach: Some((1, 11)),
    },
    Case {
        text: "let f = function x -> x | y -> x",
        breach: Some((1, 32)),
    },
    Case {
        text: "let f x = match x with y when y -> y | _ -> y",
        breach: Some((1, 45)),
    },
    Case {
        text: "type _ Effect.t += E : int Effect.t let () = ignore (Effect.perform E)",
        breach: None,
    },
    Case {
        text: "type _ foo += E : int Effect.t",
        breach: Some((1, 8)),
    },
    Case {
        text: "let f (x, x) = x",
        breach: Some((1, 11)),
    },
    Case {
        text: "let f x x = x",
        breach: None,
    },
    Case {
        text: "let x = 1 and x = 2",
        breach: Some((1, 15)),
    },
    Case {
        text: "let rec f x = x and f y = y",
        breach: Some((1, 21)),
    },
    Case {
        text: "type ('a, 'a) t = A",
        breach: Some((1, 11)),
    },
    Case {
        text: "type t = A and t = B",
        breach: Some((1, 16)),
    },
    Case {
        text: "type t = A | B | A",
        breach: Some((1, 18)),
    },
    Case {
        text: "type t = { x : int; x : int }",
        breach: Some((1, 21)),
    },
    Case {
        text: "let f = function (x, (y as x)) -> x",
        breach: Some((1, 28)),
    },
    Case {
        text: "let f a = match a with x, y :: x -> x | _ -> 0",
        breach: Some((1, 32)),
    },
    Case {
        text: "let f = function (x, 1) | (1, x) -> x",
        breach: None,
    },
    Case {
        text: "let f = function (x, 1) | (1, y) -> 1",
        breach: Some((1, 19)),
    },
    Case {
        text: "let f = function (x, 1) | (1, 2) -> 1",
        breach: Some((1, 19)),
    },
    Case {
        text: "let f = function (1, 2) | (1, x) -> 1",
        breach: Some((1, 31)),
    },
    Case {
        text: "let f = function (x, y) | (y, x) -> x",
        breach: None,
    },
    Case {
        text: "let f = function (x | 1) -> 1",
        breach: Some((1, 19)),
    },
    Case {
        text: "let f = function ((x | x), y) | (y, (x | x)) -> x",
        breach: None,
    },
    Case {
        text: "type t = A of 'a",
        breach: Some((1, 15)),
    },
    Case {
        text: "type 'a t = A of 'a | B of 'b",
        breach: Some((1, 28)),
    },
    Case {
        text: "exception E of 'a",
        breach: Some((1, 16)),
    },
    Case {
        text: "exception E of _",
        breach: Some((1, 16)),
    },
    Case {
        text: "type t = A of _",
        breach: Some((1, 15)),
    },
    Case {
        text: "let f (x : 'a) (y : 'b) = x",
        breach: None,
    },
    Case {
        text: "type 'a t = { x : 'b }",
        breach: Some((1, 19)),
    },
    Case {
        text: "let () = ignore (List.foo)",
        breach: Some((1, 18)),
    },
    Case {
        text: "let () = ignore (Foo.bar)",
        breach: Some((1, 18)),
    },
    Case {
        text: "let () = ignore (Effect.Foo.bar)",
        breach: Some((1, 18)),
    },
    Case {
        text: "type _ Effect.t += E : int Effect.t\nlet () = match 1 with x -> print_int x | effect E, k -> Effect.Deep.continue k x",
        breach: Some((2, 80)),
    },
    Case {
        text: "type _ Effect.t += E : int -> int Effect.t\nlet f g = Effect.Deep.try_with g () { effc = fun (type a) (eff : a Effect.t) -> match eff with | E n -> Some (fun (k : (a, _) Effect.Deep.continuation) -> Effect.Deep.continue k n) | _ -> None }",
        breach: None,
    },
    Case {
        text: "type _ Effect.t += E : int Effect.t\nlet f g = Effect.Deep.try_with g () { effc = fun eff -> match eff with | F -> Some (fun k -> Effect.Deep.continue k 1) | _ -> None }",
        breach: Some((2, 74)),
    },
    Case {
        text: "let f (x, x) = y",
        breach: Some((1, 11)),
    },
    Case {
        text: "let f () = y let g (x, x) = 1",
        breach: Some((1, 12)),
    },
    Case {
        text: "",
        breach: None,
    },
    Case {
        text: "let () = ()",
        breach: None,
    },
];

// The program that a text is.
fn read(alloc: Global, text: &str) -> Result<Prog, Refusal> {
    if text.len() > 16_777_216 {
        return Err(Refusal::Usage);
    }
    let tokens = lex(alloc, text.as_bytes())?;
    parse(alloc, &tokens)
}

// The place of the first breach of a text.
fn breach_of(alloc: Global, text: &str) -> Result<Option<Place>, Refusal> {
    let prog = read(alloc, text)?;
    match elaborate(alloc, &prog, "test.ml") {
        Ok(_) => Ok(None),
        Err(Refusal::Name(place)) => Ok(Some(place)),
        Err(refusal) => Err(refusal),
    }
}

#[test]
fn finds_the_first_breach(rt: HostRuntime) -> Result<(), Fail> {
    for case in CASES {
        let expected = case.breach.map(|(line, column)| Place { line, column });
        assert_eq!(rt; breach_of(rt.alloc(), case.text)?, expected);
    }
    Ok(())
}

#[test]
fn keeps_the_prelude_as_the_tree_of_its_text(rt: HostRuntime) -> Result<(), Fail> {
    let alloc = rt.alloc();
    let (text, table) = (read(alloc, prelude())?, prelude_program(alloc)?);
    assert_eq!(rt; table.nodes.len(), text.nodes.len());
    assert_eq!(rt; table.items.len(), text.items.len());
    assert_eq!(rt; print(alloc, &table)?, print(alloc, &text)?);
    Ok(())
}
