//! Texts, and what the rules say of their types: most beside a near miss.

use crate::Answer::{self, Fault, Other, TooLarge, Types};
use type_terms::BaseTy::{self, Bool, Char, Int, Str, Unit};

/// Texts behind the same first lines, each with its answer.
pub(crate) struct Group {
    pub head: &'static str,
    pub texts: &'static [(&'static str, Answer)],
}

/// A fault of syntax or of names comes before one of types.
pub(crate) const EARLIER: Group = Group {
    head: "",
    texts: &[
        ("let a = 1 + true let b = a", Fault(1, 13)),
        ("let a = 1 + true let b = c", Other),
        ("let a = 1 + true let b =", Other),
    ],
};

/// What a top-level `let` binds to a function literal is generalised, and nothing else: OCaml generalises
/// values like `[]`, and local names too.
pub(crate) const GENERALISED: Group = Group {
    head: "",
    texts: &[
        (r#"let id = fun x -> x let a = id 1 let b = id "a""#, Types),
        (
            r#"let id = (fun x -> x) (fun x -> x) let a = id 1 let b = id "a""#,
            Fault(1, 60),
        ),
        (
            "let id = (fun x -> x) (fun x -> x) let a = id 1 let b = id 2",
            Types,
        ),
        (
            r#"let r = ref [] let f () = match !r with y :: _ -> y | [] -> failwith ""
let () = r := [[]]; ignore ("a" :: f ()); r := [["b"]]"#,
            Types,
        ),
        (
            r#"let r = ref [] let f () = match !r with y :: _ -> y | [] -> failwith ""
let () = r := [[]]; ignore ("a" :: f ()); r := [[1]]"#,
            Fault(2, 49),
        ),
        (
            "let r = ref [] let put x = r := x :: []
let h c = r := (c :: []) :: []; put (true :: []) let () = h true",
            Types,
        ),
        (
            "let r = ref [] let put x = r := x :: []
let h c = r := (c :: []) :: []; put (true :: []) let () = h 1",
            Fault(2, 61),
        ),
        (
            r#"let id = (fun x -> x : 'a -> 'a) let a = id 1 let b = id "a""#,
            Types,
        ),
        (
            r#"let pair x y = (x, y) let a = pair 1 "a" let b = pair "a" 1"#,
            Types,
        ),
        (
            r#"let pair x y = (x, y) let p = pair 1 let a = p 2 let b = p "a""#,
            Fault(1, 60),
        ),
        ("let r = ref [] let () = r := 1 :: !r; r := 2 :: !r", Types),
        (
            r#"let r = ref [] let () = r := 1 :: !r; r := "a" :: !r"#,
            Fault(1, 48),
        ),
        (
            r#"let new_ref () = ref [] let () = new_ref () := [1]; new_ref () := ["a"]"#,
            Types,
        ),
        ("let r = ref (fun x -> x) let a = !r 1 let b = !r 2", Types),
        (
            r#"let r = ref (fun x -> x) let a = !r 1 let b = !r "a""#,
            Fault(1, 50),
        ),
        (
            "let a = [||] let n = Array.length a let x = 1 + a.(0) let y = 2 + a.(0)",
            Types,
        ),
        (
            r#"let a = [||] let n = Array.length a let x = 1 + a.(0) let y = "a" ^ a.(0)"#,
            Fault(1, 70),
        ),
        (
            "let (f, n) = ((fun x -> x), 1) let a = f n let b = f 2",
            Types,
        ),
        (
            r#"let (f, n) = ((fun x -> x), 1) let a = f n let b = f "a""#,
            Fault(1, 54),
        ),
        ("let f () = let id x = x in (id 1, id 2)", Types),
        (r#"let f () = let id x = x in (id 1, id "a")"#, Fault(1, 38)),
        (
            r#"let f x = let id y = y in id x let a = f 1 let b = f "a""#,
            Types,
        ),
        ("let f g = (g 1, g 2)", Types),
        (r#"let f g = (g 1, g "a")"#, Fault(1, 19)),
        (
            "let r = ref [] let f x = r := x :: !r; x let a = f 1 let b = f 2",
            Types,
        ),
        (
            r#"let r = ref [] let f x = r := x :: !r; x let a = f 1 let b = f "a""#,
            Fault(1, 64),
        ),
        (
            r#"let empty () = [] let a = 1 :: empty () let b = "a" :: empty ()"#,
            Types,
        ),
        (
            r#"let f x = let g y = (x, y) in g 1 let a = f 1 let b = f "a""#,
            Types,
        ),
        (
            "let last = ref None let keep x = last := Some x let () = keep 1; keep 2",
            Types,
        ),
        (
            r#"let last = ref None let keep x = last := Some x let () = keep 1; keep "a""#,
            Fault(1, 71),
        ),
    ],
};

/// What a top-level `let rec` binds is generalised. Within its group each name has one type.
pub(crate) const RECURSIVE: Group = Group {
    head: "",
    texts: &[
        (
            "let rec even n = n = 0 || odd (n - 1) and odd n = n <> 0 && even (n - 1)",
            Types,
        ),
        (
            "let rec even n = n = 0 || odd (n - 1) and odd n = if n = 0 then 0 else even (n - 1)",
            Fault(1, 72),
        ),
        (r#"let rec id x = x let f () = (id 1, id "a")"#, Types),
        (
            r#"let rec id x = x and f () = (id 1, id "a")"#,
            Fault(1, 39),
        ),
        (
            "let rec id x = x and f () = (id 1, id 2) let a = id 3",
            Types,
        ),
        (
            r#"let rec id x = x and f () = (id 1, id 2) let a = id "a""#,
            Fault(1, 53),
        ),
        (
            r#"let rec f x = g x and g x = f x let a = 1 + f 2 let b = "a" ^ g true"#,
            Types,
        ),
        (
            r#"let rec length l = match l with [] -> 0 | _ :: r -> 1 + length r let a = length [1] + length ["a"]"#,
            Types,
        ),
        (
            "let rec length l = match l with [] -> 0 | _ :: r -> length 1",
            Fault(1, 1),
        ),
        (
            r#"let f () = let rec id x = x in (id 1, id "a")"#,
            Fault(1, 42),
        ),
        ("let rec f : int -> int = fun x -> f x", Types),
        ("let rec f : int -> bool = fun x -> x + 1", Fault(1, 27)),
        (r#"let rec f x : int = f x let a = f 1 + f "a""#, Types),
        (r#"let rec f x : int = f x let a = f 1 ^ "a""#, Fault(1, 33)),
    ],
};

/// No type is a part of itself, by one equation or by two.
pub(crate) const ENDLESS: Group = Group {
    head: "",
    texts: &[
        ("let f x y = x y", Types),
        ("let f x = x x", Fault(1, 11)),
        ("let rec f x = f", Fault(1, 1)),
        ("let rec f x = f x", Types),
        ("let rec f l = f [l]", Fault(1, 1)),
        ("let rec f l = f (List.rev l)", Types),
        ("let f x = x := x", Fault(1, 16)),
        ("let f x y = x := y; y := x", Fault(1, 26)),
        ("let f x y = x := y; y := 1", Types),
        (
            "let f x y = [x; (y, 1)] = [] || [y; (x, 1)] == []",
            Fault(1, 34),
        ),
        ("let f x y = ([x; (y, 1)], [y; (x, 1)])", Fault(1, 28)),
        ("let f x y = ([x; (y, 1)], [y; (2, 1)])", Types),
        ("let f g = g (fun x -> g x)", Fault(1, 14)),
        ("let f g = g (fun x -> x)", Types),
        ("let f (x : 'a) = ([x] : 'a list)", Types),
        ("let f (x : 'a) = (x : 'a list)", Fault(1, 19)),
        (
            "let f l = match l with x :: r -> x = r | [] -> true",
            Fault(1, 38),
        ),
        ("let f l = match l with x :: r -> x :: l | [] -> l", Types),
        (
            "let f l = match l with x :: r -> l :: x | [] -> l",
            Fault(1, 36),
        ),
        ("type t = T of (t -> t) let f (T g) = g (T g)", Types),
    ],
};

/// A comparison by content is at int, bool, char, string or unit, which is known by the end of the
/// program. One by words is at any type.
pub(crate) const COMPARISONS: Group = Group {
    head: "",
    texts: &[
        ("let a = 1 = 2 let b = 1 < 2 let c = compare 1 2", Types),
        (
            "let a = true <> false let b = true > false let c = compare true false",
            Types,
        ),
        (
            "let a = 'a' = 'b' let b = 'a' <= 'b' let c = compare 'a' 'b'",
            Types,
        ),
        (
            r#"let a = "a" <> "b" let b = "a" >= "b" let c = compare "a" "b""#,
            Types,
        ),
        (
            "let a = () = () let b = () < () let c = compare () ()",
            Types,
        ),
        (r#"let a = 1 = "a""#, Fault(1, 13)),
        ("let a = [1] = [2]", Fault(1, 13)),
        ("let a = [1] == [2]", Types),
        ("let a = (1, 2) < (3, 4)", Fault(1, 16)),
        ("let a = (fun x -> x) = (fun x -> x)", Fault(1, 22)),
        ("let a = Some 1 <> None", Fault(1, 16)),
        ("let a = ref 1 = ref 1", Fault(1, 15)),
        ("let a = [|1|] > [|2|]", Fault(1, 15)),
        ("let a = Exit = Exit", Fault(1, 14)),
        (
            "type colour = Red | Green let a = Red = Green",
            Fault(1, 39),
        ),
        ("type colour = Red | Green let a = Red == Green", Types),
        ("type point = { x : int } let same p q = p.x = q.x", Types),
        (
            "type point = { x : int } let same p = p = { x = 1 }",
            Fault(1, 41),
        ),
        ("let same a b = a = b", Fault(1, 18)),
        (
            r#"let same a b = a == b let x = same 1 2 let y = same "a" "b""#,
            Types,
        ),
        ("let same (a : int) b = a = b", Types),
        ("let same (a : 'a) b = a = b", Fault(1, 25)),
        ("let same a b = a = b let x = same 1 2", Fault(1, 18)),
        ("let f x = let same a b = a = b in same x 1", Types),
        ("let f x = let same a b = a = b in same x [1]", Fault(1, 28)),
        ("let c = compare let x = c 1 2", Fault(1, 9)),
        ("let c a b = compare (a + 0) b let x = c 1 2", Types),
        ("let f x = compare x", Fault(1, 11)),
        (r#"let f x = compare (x ^ "a")"#, Types),
        ("let f l = match l with [] -> true | x :: _ -> x = 1", Types),
        (
            "let f l = match l with [] -> true | x :: r -> x = 1 && r <> []",
            Fault(1, 58),
        ),
    ],
};

/// Records have each field once, constructors their argument, types their number of arguments.
pub(crate) const DATA: Group = Group {
    head: "type point = { x : int; mutable y : string }
type 'a box = { it : 'a }
type shape = Dot | Line of int | Mark of int * string
type 'a tree = Leaf | Node of 'a tree * 'a * 'a tree
",
    texts: &[
        (r#"let p = { x = 1; y = "a" } let () = p.y <- "b""#, Types),
        (r#"let p = { y = "a"; x = 1 } let a = p.x + 1"#, Types),
        ("let p = { x = 1 }", Fault(5, 9)),
        (r#"let p = { x = 1; x = 2; y = "a" }"#, Fault(5, 9)),
        ("let p = { x = 1; it = 2 }", Fault(5, 9)),
        ("let p = { x = 1; y = 2 }", Fault(5, 22)),
        ("let f p = p.x <- 1", Fault(5, 15)),
        ("let f p = p.y <- 1", Fault(5, 18)),
        (r#"let f p = p.y <- "a"; p.x"#, Types),
        ("let f (p : int) = p.x", Fault(5, 19)),
        (r#"let f p = p.x ^ "a""#, Fault(5, 11)),
        (
            r#"let get b = b.it let a = get { it = 1 } + 1 let b = get { it = "a" } ^ "b""#,
            Types,
        ),
        (
            "let b = { it = fun x -> x } let a = b.it 1 let c = b.it 2",
            Types,
        ),
        (
            r#"let b = { it = fun x -> x } let a = b.it 1 let c = b.it "a""#,
            Fault(5, 57),
        ),
        ("let f (b : int box) = b.it + 1", Types),
        ("let f (b : string box) = b.it + 1", Fault(5, 26)),
        ("let f (b : box) = b", Fault(5, 7)),
        ("let f (b : (int, int) box) = b", Fault(5, 7)),
        ("let f (b : int point) = b", Fault(5, 7)),
        ("let f (b : (int, int) list) = b", Fault(5, 7)),
        ("let f (b : list) = b", Fault(5, 7)),
        ("type u = U of box", Fault(5, 10)),
        ("type u = U of int box list", Types),
        ("type u = { u : int shape }", Fault(5, 12)),
        (r#"let a = [Dot; Line 1; Mark (1, "a")]"#, Types),
        ("let a = Dot 1", Fault(5, 9)),
        ("let a = Line", Fault(5, 9)),
        (r#"let a = Line "a""#, Fault(5, 14)),
        ("let a = Mark 1", Fault(5, 14)),
        ("let a = Mark (1, 2)", Fault(5, 16)),
        (
            r#"let a = Node (Leaf, 1, Node (Leaf, 2, Leaf)) let b = Node (Leaf, "a", Leaf)"#,
            Types,
        ),
        (
            r#"let a = Node (Leaf, 1, Node (Leaf, "a", Leaf))"#,
            Fault(5, 19),
        ),
        (
            r#"exception E of int * string let f () = raise (E (1, "a"))"#,
            Types,
        ),
        (
            "exception E of int * string let f () = raise (E (1, 2))",
            Fault(5, 51),
        ),
        (
            "exception E of int * string let f () = raise E",
            Fault(5, 46),
        ),
        ("let f () = raise 1", Fault(5, 18)),
        ("let f () = failwith 1", Fault(5, 21)),
        (
            "let f x = if x then raise Exit else 1 let a = f true + 1",
            Types,
        ),
        ("let f () = raise (Effect.Unhandled 1)", Fault(5, 19)),
    ],
};

/// Patterns fit what is matched, guards are at bool, clauses at one type. The argument of
/// `Effect.Unhandled` is `_`.
pub(crate) const PATTERNS: Group = Group {
    head: "type shape = Dot | Line of int | Name of string\n",
    texts: &[
        ("let f = function Line n -> n | Name _ | Dot -> 0", Types),
        (
            "let f = function Line n -> n | Name s -> s | Dot -> 0",
            Fault(2, 42),
        ),
        (
            "let f = function Line n -> n | Name n -> 1 | Dot n -> 0",
            Fault(2, 46),
        ),
        ("let f = function Line -> 1 | _ -> 0", Fault(2, 18)),
        (r#"let f = function Line "a" -> 1 | _ -> 0"#, Fault(2, 23)),
        ("let f = function Dot | Line 1 -> 1 | _ -> 0", Types),
        ("let f = function Dot | 1 -> 1 | _ -> 0", Fault(2, 24)),
        ("let f = function (1, x) | (x, 1) -> x + 1", Types),
        (r#"let f = function (1, x) | (x, "a") -> x"#, Fault(2, 29)),
        (
            "let f = function Line a | Name a -> 1 | Dot -> 0",
            Fault(2, 32),
        ),
        (
            r#"let f = function 1 -> 1 | "a" -> 2 | _ -> 3"#,
            Fault(2, 27),
        ),
        (
            "let f = function [] -> 1 | [x] -> x | x :: y :: _ -> x + y",
            Types,
        ),
        ("let f = function [] -> 1 | None -> 2", Fault(2, 28)),
        (r#"let f = function [1; "a"] -> 1 | _ -> 2"#, Fault(2, 19)),
        (
            "let f = function (a, b) -> a | (a, b, c) -> a",
            Fault(2, 34),
        ),
        ("let f = function x when x > 1 -> x | _ -> 0", Types),
        ("let f = function x when x -> 1 | _ -> 0", Types),
        ("let f = function x when x + 1 -> x | _ -> 0", Fault(2, 27)),
        ("let f = function 1 as x -> x + 1 | x -> x", Types),
        (
            r#"let f = function 1 as x -> x ^ "a" | _ -> "b""#,
            Fault(2, 28),
        ),
        ("let f = function (x : string) -> x + 1", Fault(2, 34)),
        ("let f = function (1 : string) -> 1 | _ -> 2", Fault(2, 18)),
        (
            r#"let f x = match x with 1 -> "a" | _ -> "b" let a = f 1 ^ "c""#,
            Types,
        ),
        (r#"let f x = match x with 1 -> "a" | _ -> 2"#, Fault(2, 40)),
        (
            r#"let f x = match x + 1 with "a" -> 1 | _ -> 2"#,
            Fault(2, 28),
        ),
        (
            r#"let (a, b) = (1, "a") let c = a + 1 let d = b ^ "b""#,
            Types,
        ),
        (r#"let (a, b) = (1, "a") let c = b + 1"#, Fault(2, 31)),
        ("let (a, b) = 1", Fault(2, 7)),
        ("let (a, b) = (1, 2, 3)", Fault(2, 7)),
        ("let f () = 1 let a = f ()", Types),
        ("let f () = 1 let a = f 2", Fault(2, 24)),
        (
            "let f g = try g () with Not_found -> 0 | Failure s -> String.length s",
            Types,
        ),
        (
            "let f g = try g () with Not_found -> 0 | Failure s -> s",
            Fault(2, 55),
        ),
        (
            "let f g = try g () with Not_found -> 0 | 1 -> 2",
            Fault(2, 42),
        ),
        ("let f g = try g () with Failure 1 -> 2", Fault(2, 33)),
        (
            "let f g = match g () with x -> x + 1 | exception Exit -> 0",
            Types,
        ),
        (
            r#"let f g = match g () with x -> x + 1 | exception Exit -> "a""#,
            Fault(2, 58),
        ),
        (
            "let f g = match g () with x -> x + 1 | exception None -> 0",
            Fault(2, 50),
        ),
        ("let f g = try g () with Effect.Unhandled _ -> 1", Types),
        (
            "let f g = try g () with Effect.Unhandled x -> 1",
            Fault(2, 25),
        ),
    ],
};

/// Applications, operators and control.
pub(crate) const FORMS: Group = Group {
    head: "",
    texts: &[
        ("let f x y = x + y let a = f 1 2", Types),
        (r#"let f x y = x + y let a = f 1 "a""#, Fault(1, 31)),
        ("let f x y = x + y let a = f 1 2 3", Fault(1, 27)),
        ("let f x y = x + y let a = f 1 + 2", Fault(1, 27)),
        ("let a = 1 2", Fault(1, 9)),
        ("let a = 1 + true", Fault(1, 13)),
        ("let a = 1 + -2 let b = - a let c = abs b", Types),
        ("let a = - true", Fault(1, 11)),
        (r#"let a = "a" ^ string_of_int 1"#, Types),
        (r#"let a = "a" ^ 1"#, Fault(1, 15)),
        ("let a = true && 1 < 2 || not false", Types),
        ("let a = true && 1", Fault(1, 14)),
        ("let a = [1; 2] @ [3] let b = 1 :: a", Types),
        (r#"let a = [1; "a"]"#, Fault(1, 10)),
        ("let a = [|1; 2|] let b = a.(0) + 1", Types),
        (r#"let a = [|1; "a"|]"#, Fault(1, 14)),
        (r#"let a = "abc".[0] let b = Char.code a"#, Types),
        ("let a = [|1|].[0]", Fault(1, 9)),
        ("let a = [|1|].(true)", Fault(1, 16)),
        ("let a = ref 1 let () = a := !a + 1; incr a", Types),
        (r#"let a = ref "a" let () = incr a"#, Fault(1, 31)),
        ("let a = !1", Fault(1, 10)),
        ("let a = if true then 1 else 2", Types),
        ("let a = if 1 then 2 else 3", Fault(1, 12)),
        (r#"let a = if true then 1 else "a""#, Fault(1, 29)),
        ("let () = if true then print_int 1", Types),
        ("let a = if true then 1", Fault(1, 9)),
        ("let () = while true do print_int 1 done", Types),
        ("let () = while 1 do () done", Fault(1, 16)),
        ("let () = for i = 1 to 3 do print_int i done", Types),
        (r#"let () = for i = 1 to "a" do () done"#, Fault(1, 10)),
        (
            "let () = for i = 1 to 3 do print_string i done",
            Fault(1, 10),
        ),
        (
            "let a = [1] |> List.length let () = print_int @@ a + 1",
            Types,
        ),
        ("let a = [1] |> String.length", Fault(1, 10)),
        (
            r#"let a = fst (1, "a") + 1 let b = snd (1, "a") ^ "b""#,
            Types,
        ),
        ("let a = fst (1, 2, 3)", Fault(1, 15)),
        ("let a = List.map string_of_int [1; 2]", Types),
        (r#"let a = List.map string_of_int ["a"]"#, Fault(1, 33)),
    ],
};

/// Annotations: a type variable is one type within its item, and `_` a new one.
pub(crate) const ANNOTATIONS: Group = Group {
    head: "",
    texts: &[
        (
            r#"let f (x : 'a) (y : 'a) = (x, y) let a = f 1 2 let b = f "a" "b""#,
            Types,
        ),
        (
            r#"let f (x : 'a) (y : 'a) = (x, y) let a = f 1 "a""#,
            Fault(1, 46),
        ),
        (r#"let f (x : 'a) (y : 'b) = (x, y) let a = f 1 "a""#, Types),
        (r#"let f (x : _) (y : _) = (x, y) let a = f 1 "a""#, Types),
        ("let f (x : 'a) : 'a = x + 1 let a = f 1", Types),
        (r#"let f (x : 'a) : 'a = x + 1 let a = f "a""#, Fault(1, 39)),
        (
            "let f x = let y : 'a = x in let z : 'a = 1 in y let a = f 2",
            Types,
        ),
        (
            r#"let f x = let y : 'a = x in let z : 'a = 1 in y let a = f "a""#,
            Fault(1, 59),
        ),
        (
            r#"let f (x : 'a) = x let g (x : 'a) = x + 1 let a = f "a""#,
            Types,
        ),
        (r#"let a = (1 : int) let b = ("a" : string)"#, Types),
        ("let a = (1 : string)", Fault(1, 10)),
        ("let f x : string = x + 1", Fault(1, 22)),
        (r#"let f (g : int -> string) = g 1 ^ "a""#, Types),
        (r#"let f (g : int -> string) = g "a""#, Fault(1, 31)),
    ],
};

/// The type of a top-level definition has at most 4,096 nodes: that of `v10` has 2,047, that of `v9`
/// 1,023. A fault comes before the limit.
pub(crate) const SIZES: Group = Group {
    head: "let v1 = (1, 1) let v2 = (v1, v1) let v3 = (v2, v2) let v4 = (v3, v3) let v5 = (v4, v4)
let v6 = (v5, v5) let v7 = (v6, v6) let v8 = (v7, v7) let v9 = (v8, v8) let v10 = (v9, v9)
",
    texts: &[
        ("let a = (v10, v10)", Types),
        ("let a = Some (v10, v10)", Types),
        ("let a = Some (Some (v10, v10))", TooLarge),
        ("let f () = (v10, v9, v9)", Types),
        ("let f () = (v10, v10)", TooLarge),
        ("let f () = let a = ((v10, v10), (v10, v10)) in 1", Types),
        ("let () = ignore ((v10, v10), (v10, v10))", Types),
        ("let rec f x = (v10, v9, v9)", Types),
        ("let rec f x = (v10, v10)", TooLarge),
        ("let a = ((v10, v10), 1 + true)", Fault(3, 26)),
        ("let a = ((v10, v10), [1] = [2])", Fault(3, 26)),
        (
            "let p x = (x, x) let q x = p (p x) let r x = q (q x) let s x = r (r x) let t x = (s (q x), s (p x), s (p x))",
            Types,
        ),
        (
            "let p x = (x, x) let q x = p (p x) let r x = q (q x) let s x = r (r x) let t x = (s (q x), s (q x))",
            TooLarge,
        ),
        (
            "let v11 = (v10, v10) let v12 = (v11, v11) let v13 = (v12, v12) let v14 = (v13, v13)",
            TooLarge,
        ),
    ],
};

/// Texts, and the types of their comparisons in the order of the text.
pub(crate) const COMPARED: &[(&str, &[BaseTy])] = &[
    ("let a = 1", &[]),
    (r#"let f a b = (b = "b", a = 1)"#, &[Str, Int]),
    ("let a = ('a' = 'b') = (1 > 2)", &[Char, Bool, Int]),
    (
        r#"let a = true <> (compare "a" "b" = 0)"#,
        &[Bool, Str, Int],
    ),
    ("let f a b = a = b && b < 1", &[Int, Int]),
    ("let f a = let same b c = b = c in same a ()", &[Unit]),
    (r#"let is_a = compare "a" let f a = a == a"#, &[Str]),
    (
        "let rec f a b = a = b || g b and g a = a > 'a' let c = true = f 'b' 'c'",
        &[Char, Char, Bool],
    ),
];
