//! What comes of the worked texts. The numbers of functions are those that a first version of these
//! passes, in another language, gives.

use crate::{Answer, answer_of};
use fx_base::LimitKind;
use std::alloc::{AllocError, Global};
use std::fmt::Write;
use std::test::Fail;

// A text, and what comes of it.
type Found = (&'static str, Answer);

// The first text that has another answer than it should.
fn first_miss(alloc: Global, texts: &[Found]) -> Option<Found> {
    for (text, answer) in texts {
        let found = answer_of(alloc, text.as_bytes());
        if found != *answer {
            return Some((*text, found));
        }
    }
    None
}

#[test]
fn converts_functions(rt: HostRuntime) -> Result<(), Fail> {
    let texts = [
        ("let () = print_int 3", Answer::Functions(1)),
        (
            "let f x y = x + y let () = print_int (f 1 2)",
            Answer::Functions(3),
        ),
        (
            "let f x = fun y -> let z = x + y in fun u -> z + u",
            Answer::Functions(3),
        ),
        (
            "let rec even n = n = 0 || odd (n - 1) and odd n = n > 0 && even (n - 1)",
            Answer::Functions(3),
        ),
        (
            "let s n = let t = ref 0 in for i = 1 to n do t := !t + i done; !t",
            Answer::Functions(2),
        ),
        (
            "let s n = for i = 1 to n do print_int i done",
            Answer::Functions(3),
        ),
    ];
    assert_eq!(rt; first_miss(rt.alloc(), &texts), None);
    Ok(())
}

#[test]
fn converts_data(rt: HostRuntime) -> Result<(), Fail> {
    let texts = [
        (
            "type t = A | B of int | C of t * t
let rec f x = match x with A -> 0 | B n when n > 3 -> n | C (A, y) | C (y, _) -> f y | _ -> 1",
            Answer::Functions(2),
        ),
        (
            "type r = { mutable a : int; b : string }
let f r = match r with { b = \"x\"; a = n } -> r.a <- n + 1; r.a | _ -> 0",
            Answer::Functions(2),
        ),
        (
            "exception E of int
let f g = try g () with E n as e -> if n = 0 then raise e else n | Not_found -> 1",
            Answer::Functions(2),
        ),
        (
            "open Effect
open Effect.Deep
type _ Effect.t += Get : int Effect.t | Put : int -> unit Effect.t
let run f = match f () with
  | v -> v
  | effect Get, k -> continue k 1
  | effect (Put n), k -> print_int n; continue k ()",
            Answer::Functions(7),
        ),
    ];
    assert_eq!(rt; first_miss(rt.alloc(), &texts), None);
    Ok(())
}

// Adds so many names, each of which is the one before it.
fn add_names(text: &mut String, name: &str, count: u32) -> Result<(), AllocError> {
    for number in 1..count {
        let before = number - 1;
        write!(text, "let {name}{number} = {name}{before} in ")?;
    }
    Ok(())
}

fn add_uses(text: &mut String, name: &str, count: u32) -> Result<(), AllocError> {
    for number in 0..count {
        write!(text, "ignore {name}{number}; ")?;
    }
    Ok(())
}

// A function with so many slots.
fn with_slots(alloc: Global, slots: u32) -> Result<String, AllocError> {
    let mut text = String::from_str(alloc, "let f x0 = ")?;
    add_names(&mut text, "x", slots)?;
    text.push_str("x0")?;
    Ok(text)
}

// A function with so many free names, in one with 120 names.
fn with_free(alloc: Global, free: u32) -> Result<String, AllocError> {
    let inner = free.saturating_sub(120);
    let mut text = String::from_str(alloc, "let f x0 = ")?;
    add_names(&mut text, "x", 120)?;
    text.push_str("ignore 1; fun y0 -> ")?;
    add_names(&mut text, "y", inner)?;
    text.push_str("ignore 2; fun z -> ")?;
    add_uses(&mut text, "x", 120)?;
    add_uses(&mut text, "y", inner)?;
    text.push_str("z")?;
    Ok(text)
}

#[test]
fn keeps_the_limit_on_slots(rt: HostRuntime) -> Result<(), Fail> {
    let text = with_slots(rt.alloc(), 255)?;
    assert_eq!(rt;
        answer_of(rt.alloc(), text.as_bytes()),
        Answer::Functions(2)
    );
    let text = with_slots(rt.alloc(), 256)?;
    let above = Answer::Limit(LimitKind::Slots, 256);
    assert_eq!(rt; answer_of(rt.alloc(), text.as_bytes()), above);
    Ok(())
}

#[test]
fn keeps_the_limit_on_free_names(rt: HostRuntime) -> Result<(), Fail> {
    let text = with_free(rt.alloc(), 255)?;
    assert_eq!(rt;
        answer_of(rt.alloc(), text.as_bytes()),
        Answer::Functions(4)
    );
    let text = with_free(rt.alloc(), 256)?;
    let above = Answer::Limit(LimitKind::Free, 256);
    assert_eq!(rt; answer_of(rt.alloc(), text.as_bytes()), above);
    Ok(())
}
