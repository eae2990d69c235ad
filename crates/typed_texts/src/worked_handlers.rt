//! Texts of effects and handlers, and what the rules say of their types: most beside a near miss.

use crate::Answer::{Fault, Types};
use crate::worked_texts::Group;

/// An effect constructor gives an `Effect.t`, and is performed with its argument.
pub(crate) const EFFECTS: Group = Group {
    head: "open Effect open Effect.Deep
type _ Effect.t += Ask : int t | Tell : string -> unit t
",
    texts: &[
        (
            r#"let a = perform Ask + 1 let () = perform (Tell "a")"#,
            Types,
        ),
        (r#"let a = perform Ask ^ "a""#, Fault(3, 9)),
        ("let a = perform (Tell 1)", Fault(3, 23)),
        ("let a = perform Tell", Fault(3, 17)),
        ("let a = perform (Ask 1)", Fault(3, 18)),
        ("let a = perform 1", Fault(3, 17)),
        ("type _ Effect.t += E : int Effect.t", Types),
        ("type _ Effect.t += E : int list", Fault(3, 20)),
        ("type _ list += E : int t", Fault(3, 1)),
        (
            "type 'a t = T of 'a type _ Effect.t += E : int Effect.t",
            Types,
        ),
        (
            "type 'a t = T of 'a type _ Effect.t += E : int t",
            Fault(3, 40),
        ),
    ],
};

/// Effect clauses of `match` and `try`.
pub(crate) const HANDLERS: Group = Group {
    head: "open Effect open Effect.Deep
type _ Effect.t += Ask : int t | Tell : string -> unit t
",
    texts: &[
        (
            "let f g = match g () with n -> n + 1 | effect Ask, k -> continue k 1",
            Types,
        ),
        (
            r#"let f g = match g () with n -> n + 1 | effect Ask, k -> continue k "a""#,
            Fault(3, 68),
        ),
        (
            r#"let f g = match g () with n -> "a" | effect Ask, k -> continue k 1"#,
            Types,
        ),
        (
            r#"let f g = match g () with n -> "a" | effect Ask, k -> continue k 1 + 1"#,
            Fault(3, 55),
        ),
        (
            r#"let f g = match g () with n -> "a" | effect Ask, k -> 1"#,
            Fault(3, 55),
        ),
        (
            "let f g = match g () with n -> n | effect Tell s, k -> print_string s; continue k ()",
            Types,
        ),
        (
            "let f g = match g () with n -> n | effect Tell s, k -> print_int s; continue k ()",
            Fault(3, 66),
        ),
        (
            "let f g = match g () with n -> n | effect Tell s, k -> continue k s",
            Fault(3, 67),
        ),
        (
            "let f g = match g () with n -> n | effect Tell, k -> continue k ()",
            Fault(3, 36),
        ),
        (
            "let f g = match g () with n -> n | effect Ask n, k -> continue k 1",
            Fault(3, 36),
        ),
        (
            "let f g = match g () with n -> n | effect Tell 1, k -> continue k ()",
            Fault(3, 48),
        ),
        (
            "let f g = match g () with n -> n | effect Some n, k -> continue k 1",
            Fault(3, 36),
        ),
        (
            r#"let f g = match g () with n -> n + 1 | effect Ask, k -> 2 | exception Exit -> "a""#,
            Fault(3, 11),
        ),
        (
            "let f g = try g () with Exit -> 0 | effect Ask, k -> discontinue k Exit",
            Types,
        ),
        (
            "let f g = try g () with Exit -> 0 | effect Ask, k -> discontinue k 1",
            Fault(3, 68),
        ),
        (
            r#"let f g = try g () with Exit -> 0 | effect Ask, k -> "a""#,
            Fault(3, 54),
        ),
        (
            "let f g = try g 1 with Exit -> 0 | effect Ask, k -> continue k 1",
            Types,
        ),
    ],
};

/// Deep handlers by `match_with` and `try_with`.
pub(crate) const DEEP: Group = Group {
    head: "open Effect open Effect.Deep
type _ Effect.t += Ask : int t | Tell : string -> unit t
",
    texts: &[
        (
            "let f g = match_with g () { retc = (fun n -> n + 1); exnc = raise;
  effc = function Ask -> Some (fun k -> continue k 1) | _ -> None }",
            Types,
        ),
        (
            "let f (g : unit -> string) = match_with g () { retc = (fun n -> n + 1); exnc = raise;
  effc = function Ask -> Some (fun k -> 1) | _ -> None }",
            Fault(3, 56),
        ),
        (
            r#"let f g = (match_with g () { retc = (fun n -> n + 1); exnc = raise;
  effc = function Ask -> Some (fun k -> "a") | _ -> None })"#,
            Fault(4, 41),
        ),
        (
            "let f g = match_with g () { retc = 1; exnc = raise; effc = function Ask -> Some (fun k -> 1) | _ -> None }",
            Fault(3, 36),
        ),
        (
            "let f g = match_with g () { retc = (fun n -> n + 1); exnc = (fun e -> match e with Exit -> 0 | _ -> raise e);
  effc = function Ask -> Some (fun k -> 1) | _ -> None }",
            Types,
        ),
        (
            r#"let f g = match_with g () { retc = (fun n -> n + 1); exnc = (fun e -> "a");
  effc = function Ask -> Some (fun k -> 1) | _ -> None }"#,
            Fault(3, 62),
        ),
        (
            "let f g = match_with g () { retc = (fun n -> n + 1); exnc = (fun () -> 1);
  effc = function Ask -> Some (fun k -> 1) | _ -> None }",
            Fault(3, 62),
        ),
        (
            "let f (g : int -> int) = match_with g 1 { retc = (fun n -> n); exnc = raise;
  effc = function Ask -> Some (fun k -> 1) | _ -> None }",
            Types,
        ),
        (
            r#"let f (g : int -> int) = match_with g "a" { retc = (fun n -> n); exnc = raise;
  effc = function Ask -> Some (fun k -> 1) | _ -> None }"#,
            Fault(3, 39),
        ),
        (
            "let f g = try_with g () { effc = function Ask -> Some (fun k -> continue k 1) | _ -> None } + 1",
            Types,
        ),
        (
            r#"let f g = try_with g () { effc = function Ask -> Some (fun k -> continue k "a") | _ -> None } + 1"#,
            Fault(3, 76),
        ),
        (
            r#"let f () = try_with (fun () -> 1) () { effc = function Ask -> Some (fun k -> "a") | _ -> None }"#,
            Fault(3, 78),
        ),
        (
            "let f g = match_with g () { retc = (fun n -> n + 1); exnc = raise;
  effc = function Ask -> Some (fun k -> continue k 1) | Tell s -> Some (fun k -> continue k ()) | _ -> None }",
            Types,
        ),
        (
            "let f g = match_with g () { retc = (fun n -> n + 1); exnc = raise;
  effc = function Ask -> Some (fun k -> continue k 1) | Tell s -> Some (fun k -> continue k 1) | _ -> None }",
            Fault(4, 93),
        ),
        (
            "let f g = try_with g () { effc = function Some n -> Some (fun k -> 1) | _ -> None }",
            Fault(3, 43),
        ),
    ],
};

/// Deep handlers with annotations: the name of `(type a)` stands for what the effect of a clause gives, and
/// the parameter of `effc` has the type of that effect.
pub(crate) const ANNOTATED: Group = Group {
    head: "open Effect open Effect.Deep
type _ Effect.t += Ask : int t | Tell : string -> unit t
",
    texts: &[
        (
            "let f g = match_with g () { retc = (fun n -> n + 1); exnc = raise;
  effc = fun (type a) (eff : a t) -> match eff with
  Ask -> Some (fun (k : (a, int) continuation) -> continue k 1)
  | Tell s -> Some (fun (k : (a, _) continuation) -> continue k ()) | _ -> None }",
            Types,
        ),
        (
            "let f g = match_with g () { retc = (fun n -> n + 1); exnc = raise;
  effc = fun (type a) (eff : a t) -> match eff with
  Ask -> Some (fun (k : (a, string) continuation) -> continue k 1) | _ -> None }",
            Fault(5, 3),
        ),
        (
            "let f g = match_with g () { retc = (fun n -> n + 1); exnc = raise;
  effc = fun (type a) (eff : a t) -> match eff with
  Ask -> Some (fun (k : (string, int) continuation) -> 1) | _ -> None }",
            Fault(5, 3),
        ),
        (
            "let f g = match_with g () { retc = (fun n -> n + 1); exnc = raise;
  effc = fun (type a) (eff : a t) -> match eff with
  Tell (s : string) -> Some (fun (k : (a, _) continuation) -> continue k ()) | _ -> None }",
            Types,
        ),
        (
            "let f g = match_with g () { retc = (fun n -> n + 1); exnc = raise;
  effc = fun (type a) (eff : a t) -> match eff with
  Tell (s : a) -> Some (fun (k : (a, _) continuation) -> continue k ()) | _ -> None }",
            Fault(5, 8),
        ),
        (
            "let f g = try_with g () { effc = fun (eff : int t) -> match eff with
  Ask -> Some (fun k -> continue k 1) | _ -> None }",
            Types,
        ),
        (
            "let f g = try_with g () { effc = fun (eff : unit t) -> match eff with
  Ask -> Some (fun k -> continue k 1) | _ -> None }",
            Fault(4, 3),
        ),
        (
            "let f g = try_with g () { effc = fun (eff : int list) -> match eff with
  Ask -> Some (fun k -> continue k 1) | _ -> None }",
            Fault(4, 3),
        ),
        (
            "let f g = try_with g () { effc = fun (type a) (eff : a t) -> match eff with _ -> None }",
            Types,
        ),
        (
            "let f g = try_with g () { effc = fun (type a) (eff : a list) -> match eff with _ -> None }",
            Fault(3, 11),
        ),
    ],
};

/// Shallow handlers.
pub(crate) const SHALLOW: Group = Group {
    head: "open Effect open Effect.Shallow
type _ Effect.t += Ask : int t | Tell : string -> unit t
",
    texts: &[
        ("let k = fiber (fun () -> perform Ask)", Types),
        ("let k = fiber 1", Fault(3, 15)),
        (
            r#"let f () = continue_with (fiber (fun n -> n + 1)) 1 { retc = string_of_int; exnc = raise;
  effc = function _ -> None } ^ "a""#,
            Types,
        ),
        (
            r#"let f () = continue_with (fiber (fun n -> n + 1)) "a" { retc = string_of_int; exnc = raise;
  effc = function _ -> None }"#,
            Fault(3, 51),
        ),
        (
            "let f () = continue_with (fiber (fun n -> n + 1)) 1 { retc = print_string; exnc = raise;
  effc = function _ -> None }",
            Fault(3, 62),
        ),
        (
            "let f () = continue_with (fiber (fun n -> n + 1)) 1 { retc = string_of_int; exnc = (fun e -> 1);
  effc = function _ -> None }",
            Fault(3, 85),
        ),
        (
            "let rec run k v = continue_with k v { retc = (fun () -> 1); exnc = raise;
  effc = function Ask -> Some (fun k -> run k 1) | _ -> None }",
            Types,
        ),
        (
            r#"let rec run k v = continue_with k v { retc = (fun () -> 1); exnc = raise;
  effc = function Ask -> Some (fun k -> run k "a") | _ -> None }"#,
            Fault(3, 1),
        ),
        (
            "let rec run k v = continue_with k v { retc = (fun () -> 1); exnc = raise;
  effc = function Ask -> Some (fun k -> run k 1; ()) | _ -> None }",
            Fault(4, 48),
        ),
        (
            "let rec run k v = continue_with k v { retc = (fun () -> 1); exnc = raise;
  effc = function Ask -> Some (fun k -> run k 1) | Tell s -> Some (fun k -> run k ()) | _ -> None }",
            Fault(4, 81),
        ),
        (
            "let rec run k v = continue_with k v { retc = (fun () -> 1); exnc = raise;
  effc = fun (type a) (eff : a t) -> match eff with
  Ask -> Some (fun (k : (a, unit) continuation) -> run k 1) | _ -> None }",
            Types,
        ),
        (
            "let rec run k v = continue_with k v { retc = (fun () -> 1); exnc = raise;
  effc = fun (type a) (eff : a t) -> match eff with
  Ask -> Some (fun (k : (a, int) continuation) -> run k 1) | _ -> None }",
            Fault(5, 3),
        ),
        (
            "let f k = discontinue_with k Exit { retc = (fun n -> n + 1); exnc = (fun _ -> 0); effc = function _ -> None }",
            Types,
        ),
        (
            "let f k = discontinue_with k 1 { retc = (fun n -> n + 1); exnc = (fun _ -> 0); effc = function _ -> None }",
            Fault(3, 30),
        ),
        (
            "let f k = discontinue_with k Exit { retc = (fun n -> n + 1); exnc = (fun _ -> 0);
  effc = function Ask -> Some (fun k -> Deep.continue k 1) | _ -> None }",
            Fault(4, 55),
        ),
        (
            "let f g = Deep.match_with g () { retc = (fun n -> n); exnc = raise;
  effc = function Ask -> Some (fun k -> continue_with k 1 { retc = (fun n -> n); exnc = raise;
  effc = function _ -> None }) | _ -> None }",
            Fault(4, 55),
        ),
        (
            "let f (k : (int, string) continuation) = continue_with k 1 { retc = String.length; exnc = raise;
  effc = function _ -> None }",
            Types,
        ),
        (
            "let f (k : (int, string) Deep.continuation) = continue_with k 1 { retc = String.length; exnc = raise;
  effc = function _ -> None }",
            Fault(3, 61),
        ),
    ],
};
