//! The texts of the tests.

/// Programs.
pub(crate) const PROGRAMS: &[&[u8]] = &[
    b"",
    b";; ;; let x = 1 ;; ;; 2 ;; type t = A ;;",
    b"1 let x = 2;; let y = 3 in y",
    b"let f x y : int = x + y let rec g = fun x -> x and h y = g y",
    b"let x, y = 1, 2 and z :: w = [1; 2] and A b as c = 1 and p | q = 2",
    b"let x = a.b.c.(1).[2].d <- !e.f; g.(1) <- 2; M.x.y <- - 4611686018427387904",
    b"type 'a t = A of int * int -> int | B and ('a, 'b) u = { mutable x : int; y : ('a, int) t list; }",
    b"type _ Effect.t += A : int t | B : (int -> int) -> unit Effect.t",
    b"exception E of int exception F open A.B.C;; 1 + 2",
    b"let x = for i = 1 to 10 do f i; done; while true do () done",
    b"let x = match a with exception E -> 1 | effect A x, k -> 2 | B when a; b -> c; d | (C | D) -> e",
    b"let x = try a with E -> 1 | effect (A x), _ -> b",
    b"let f {a = x; b = (y : int); _} [a; b] () = {a = 1; b = function A -> 1 | B x -> 2}",
    b"let x = - f x - 1 * - 2 lsl 3 lsl 4 :: a ^ b @ c || d && e = f |> g",
    b"let x = A.(0) and y = !A.x and w = f !let x = 1 in x y",
    b"let x = if a then if b then c else d else e; if a then b; c",
    b"let x = (let x = 1 in a; ; b)",
    b"let () = try_with f () { effc = fun (e : 'a t) -> match e with (A x) -> Some (fun _ -> 1) | _ -> None }; 2",
    b"let () = continue_with k v { effc = function A -> Some (fun (k : t) -> 1) | _ -> None; retc = f g; exnc = h }",
    b"let x = [match x with p -> a; ; b]",
    b"let x = (1 + let y = 2 in y; , b)",
    b"let x = if c then let y = 1 in a; else b",
    b"let x = f (A b) C D (M.E e) M.f [||] [|1; 2|] begin a end !b",
    br#"let x = fun (a, b) _ [] "s" 'c' 1 A (B c) -> d, e := 1"#,
    b"let x = match_with f x { retc = (fun x -> x); effc = function A -> Some (fun k -> a; b) | _ -> None; exnc = raise } + 1",
    b"let x = M.discontinue_with k v { effc = fun (type a) (e : a t) -> match e with | A -> Some (fun (k : (a, b) c) -> 1) | _ -> None; retc = f; exnc = h }",
    b"let x = (a : int); (b; c : (int -> 'a) * 'b); begin a; b; end",
    b"let x = for i = n downto 1 do f i done; while a <> b do c; done; {a = 1; b = c.d}",
    b"type ('a, 'b) t = | A of ('a, _) M.t * int list -> (int) and u = {mutable a : int; b : 'b}",
    b"exception A;; open M;; exception B of int * int;; 1",
    b"let rec f x = x and g = function a, b -> b, a | c when d -> e",
];

/// The programs of docs/LANGUAGE.md, in its order.
pub(crate) const BLOCKS: &[&[u8]] = &[
    b"print_int 1;;
print_int 2
let x = 3
let y = 4;;
x + y
",
    b"let one = 1
let add x y : int = x + y
let (a, b) = (1, 2) and c : int = 3
let x :: _ = [1; 2]
",
    b"let rec even n = n = 0 || odd (n - 1)
and odd = fun n -> n <> 0 && even (n - 1)
",
    b"type colour = Red | Green | Blue
type 'a tree = | Leaf | Node of 'a tree * 'a * 'a tree
and ('a, 'b) pair = { first : 'a; mutable second : 'b; }
",
    b"open Effect
open Effect.Deep
type _ Effect.t += Ask : int t | Tell : string -> unit Effect.t
exception Stop
exception Failed of int * string
",
    b"let f (x : int) (g : int -> (int * bool) list -> 'a) : 'a = g x []
let h (k : (int, _) Effect.Deep.continuation) = k
",
    br#"let constants = (1, 0x1F, 'a', "text\n", true, false, ())
let names = (List.length, None, Effect.Continuation_already_resumed)
let brackets = (1; 2), begin print_int 1; 2 end, (1 : int)
let lists = ([], [1; 2], [||], [|1; 2|])
type point = { x : int; y : int }
let origin = { x = 0; y = 0 }
let () =
  while false do print_int 1 done;
  for i = 1 to 3 do print_int i done;
  for i = 3 downto 1 do print_int i done
"#,
    br#"type cell = { mutable value : int }
let r = ref 1
let c = { value = !r }
let a = [|c; c|]
let v = a.(0).value + Char.code "abc".[1]
let some = Some !r
let f g = g a.(0) 'x' [1] None
let n = - - 1 - -v
"#,
    br#"let a = 1 + 2 * 3 - 4 mod 5
let b = 1 lsl 2 lsl 3 land 7 lor 1
let c = 1 :: 2 :: [] @ [3]
let d = "a" ^ "b" = "c" && 1 < 2 || not (1 == 2)
let e = [1] |> List.length
let f = print_int @@ 1 + 1
let t = 1, 2, 3
"#,
    b"let f = 1 + let x = 2 in x + 3
let g k = k := fun x -> x; 1
let h = 1, match 2 with n -> n, 3
",
    b"type cell = { mutable value : int }
let f c a r x =
  c.value <- x + 1;
  a.(0) <- c.value;
  r := x;
  if x > 0 then if x > 1 then print_int 1 else print_int 2;
  if x > 2 then r := 3 else r := 4;
  x;
",
    br#"let f x = let y = x and z = 1 in let rec go n = if n = 0 then z else go (n - 1) in go y
let g = fun (a, b) _ [] -> a + b
let h = function 0 -> "none" | 1 | 2 -> "few" | n when n < 0 -> "less" | _ -> "many"
"#,
    br#"type _ Effect.t += Ask : int Effect.t | Tell : int -> unit Effect.t
let run f =
  match f () with
  | 0 -> 1
  | n when n > 10 -> 10
  | n -> n
  | exception Not_found -> 2
  | exception (Failure s) when s = "" -> 3
  | effect Ask, k -> Effect.Deep.continue k 42
  | effect (Tell n), k -> print_int n; Effect.Deep.continue k ()
let safe f = try f () with Exit -> 0 | effect Ask, _ -> 1
let nested x y = match x with 0 -> begin match y with 0 -> 0 | _ -> 1 end | _ -> 2
"#,
    b"open Effect
open Effect.Deep
type _ Effect.t += Ask : int Effect.t | Tell : int -> unit Effect.t
let f g =
  match_with g ()
    { retc = (fun x -> x);
      exnc = raise;
      effc = fun (type a) (eff : a Effect.t) ->
        match eff with
        | Ask -> Some (fun (k : (a, _) continuation) -> continue k 1)
        | (Tell n) -> Some (fun k -> print_int n; continue k ())
        | _ -> None }
let h g = try_with g () { effc = function Ask -> Some (fun _ -> 0) | _ -> None }
let rec s k v = Effect.Shallow.continue_with k v
    { effc = fun eff -> match eff with _ -> None; retc = (fun x -> x); exnc = raise }
",
    br#"type point = { x : int; y : int }
let f = function
  | (), 1, 'c', "s", true -> 0
  | _, n, _, _, false -> n
  | _ -> 2
let g { x = a; _ } (b : int) [c; _] = a + b + c
let h = function Some (Some x) | Some x :: [] as all -> x | [] | None :: _ -> 0
let i = function { x = 0; y = 0 } -> 1 | { x = n; _ } as p -> n + p.y
"#,
    b"let least = -4611686018427387904
let greatest = 4611686018427387903
",
];

/// The texts of docs/LANGUAGE.md that are no programs, each with the line and the column of its fault.
pub(crate) const REFUSED_BLOCKS: &[(&[u8], u32, u32)] = &[
    (
        b"exception Stop
print_int 1
",
        2,
        1,
    ),
    (
        b"let x = print_int 1; let y = 2
",
        2,
        1,
    ),
    (
        b"let rec xs = 1 :: xs
",
        1,
        14,
    ),
    (
        b"type _ Effect.t += Ask : int
",
        2,
        1,
    ),
    (
        b"let xs = [1; 2;]
",
        1,
        16,
    ),
    (
        b"let f g = g fun x -> x
",
        1,
        13,
    ),
    (
        b"let f a b c = 1 + if a then b else c
",
        1,
        19,
    ),
    (
        b"let f x = match x with exception Exit -> 1
",
        2,
        1,
    ),
    (
        b"let f = match_with
",
        2,
        1,
    ),
    (
        b"let f = function -1 -> 0 | _ -> 1
",
        1,
        18,
    ),
    (
        b"let x = 4611686018427387904
",
        1,
        9,
    ),
];

/// Texts of one line that are no programs, each with the column of its fault.
pub(crate) const FAULTS: &[(&[u8], u32)] = &[
    (b"(* (* *) let () = ()", 1),
    (b"let x =", 8),
    (b"let x = 4611686018427387904", 9),
    (b"let x = 1 - 4611686018427387904", 13),
    (b"let x = - (4611686018427387904)", 12),
    (b"let x = (1; 2", 14),
    (b"let x = a; let y = b", 21),
    (b"let x = 1 let y = 2 in y", 21),
    (b"1; 2", 2),
    (b"let rec x = 1", 13),
    (b"let rec (x) = 1", 9),
    (b"let x = [1; 2;]", 15),
    (b"let x = 1 + if a then b else c", 13),
    (b"let x = f let y = 1 in y", 21),
    (b"let x = (let y = 1 in a; + b)", 26),
    (b"let x = match a with exception E -> 1", 38),
    (b"let x = match_with", 19),
    (b"let x = f match_with", 11),
    (b"let x = match_with f x y", 24),
    (b"let x = a.match_with", 11),
    (b"let x = e.[0] <- 1", 15),
    (b"type _ t += A : int", 20),
    (b"type _ t += A : 'a t", 17),
    (b"let f A x B y = 1 | 2", 19),
    (b"let x = (let y = 1 in a; , b)", 26),
    (b"let x = (let y = 1 in a; := b)", 26),
    (
        b"let x = try a with effect A, k -> b | exception C -> d",
        39,
    ),
    (b"let x = f {a = 1;}", 18),
    (b"let x = (a; b", 14),
    (b"let x = [1; 2|]", 14),
    (b"type t", 7),
    (b"type t = {a : int} | B", 20),
    (b"let x = a.b.(c) <- d <- ", 22),
    (b"let {a = b; _; c = d} = e", 14),
    (b"open m", 6),
    (b"let x = 'a", 9),
    (b"let x = try_with f () { retc = a; effc = b }", 25),
    (
        b"let x = match_with f x { effc = function _ -> None; effc = a }",
        53,
    ),
    (
        b"let x = continue_with k v { retc = a; exnc = b; effc = function A -> B | _ -> None }",
        70,
    ),
    (b"let f (a : int b = c", 18),
    (b"let x = a # b", 11),
];

/// Programs, and what is printed of them.
pub(crate) const PRINTED: &[(&[u8], &[u8])] = &[
    (b"open M.N", b"open M . N ;;\n"),
    (
        b"type 'a t = A | B of int * 'a and u = { mutable a : (int, _) M.t; b : u -> (u) }",
        b"type ( 'a ) t = | A | B of int * 'a and u = { mutable a : ( int , _ ) M . t ; b : u -> ( u ) ; } ;;\n",
    ),
    (
        b"type _ Effect.t += E : int -> unit t | F : int t exception X of int",
        b"type _ Effect . t += | E : int -> unit t | F : int t ;;\nexception X of int ;;\n",
    ),
    (
        b"let rec f x () : int = x + 1 and g = fun y -> - y;; f 1 |> h",
        b"let rec f x ( ) : int = x + 1 and g = fun y -> - y ; ;;\nf 1 |> h ;;\n",
    ),
    (
        b"let (x, y) = if a then b.c.(1) else M.d.[2] and [p; _] = [|e; f|]",
        b"let ( x , y ) = if a then b . c . ( 1 ) else M . d . [ 2 ] and [ p ; _ ] = [| e ; f |] ;;\n",
    ),
    (
        br#"let f = function {a = p; _} | (A (q : t) as r) when s -> (r.a <- 1; r.(2) <- begin 3 end) | 'x' :: "y" :: z -> !z"#,
        b"let f = function | { a = p ; _ } | ( A ( q : t ) as r ) when s -> ( r . a <- 1 ; r . ( 2 ) <- begin 3 end ) | 'x' :: \"y\" :: z -> ! z ; ;;\n",
    ),
    (
        b"let () = for i = 1 downto 2 do while a do () done done; let x = 1 in match x with exception E -> 1 | effect A, k -> 2 | B x -> 3",
        b"let ( ) = for i = 1 downto 2 do while a do ( ) done done ; let x = 1 in match x with | exception E -> 1 | effect A , k -> 2 | B x -> 3 ; ; ;;\n",
    ),
    (
        b"let x = try M.f N (O p) with _ -> {a = 1; b = - 4611686018427387904}",
        b"let x = try M . f N ( O p ) with | _ -> { a = 1 ; b = - 4611686018427387904 } ; ;;\n",
    ),
    (
        b"let x = match_with f y {retc = a; effc = function A -> Some (fun (k : b) -> c) | _ -> None; exnc = d}",
        b"let x = match_with f y { retc = a ; effc = function | A -> Some ( fun ( k : b ) -> c ) | _ -> None ; exnc = d } ;;\n",
    ),
    (
        b"let x = try_with f y {effc = fun (type a) (e : a t) -> match e with A -> Some (fun k -> b) | _ -> None}",
        b"let x = try_with f y { effc = fun ( type a ) ( e : a t ) -> match e with | A -> Some ( fun k -> b ) | _ -> None } ;;\n",
    ),
    (
        b"let x : 'a list = [(A : 'a); C (1, 2)]",
        b"let x : 'a list = [ ( A : 'a ) ; C ( 1 , 2 ) ] ;;\n",
    ),
];

/// Beginnings, parts and ends of programs in which a part may stand any number of times.
pub(crate) const ENDLESS: &[(&[u8], &[u8], &[u8])] = &[
    (b"let () = ", b"();", b"()"),
    (b"", b";;1", b""),
];

/// A text in which parts stand in one another: how many are within the limit, and the depth with
/// one more.
pub(crate) struct Deep {
    pub before: &'static [u8],
    pub opening: &'static [u8],
    pub inner: &'static [u8],
    pub closing: &'static [u8],
    pub after: &'static [u8],
    pub most: u32,
    pub found: u64,
}

/// Texts at the limit of the depth.
pub(crate) const DEEP: &[Deep] = &[
    Deep {
        before: b"let () = print_int ",
        opening: b"(",
        inner: b"1",
        closing: b")",
        after: b"",
        most: 398,
        found: 401,
    },
    Deep {
        before: b"type t = A of ",
        opening: b"(",
        inner: b"int",
        closing: b")",
        after: b"",
        most: 399,
        found: 401,
    },
    Deep {
        before: b"let ",
        opening: b"(",
        inner: b"_",
        closing: b")",
        after: b" = 1",
        most: 399,
        found: 401,
    },
    Deep {
        before: b"let x = ",
        opening: b"1 :: ",
        inner: b"[]",
        closing: b"",
        after: b"",
        most: 399,
        found: 401,
    },
    Deep {
        before: b"let x = - - - ",
        opening: b"try_with f () {effc = function A -> Some (fun k -> ",
        inner: b"1",
        closing: b") | _ -> None}",
        after: b"",
        most: 66,
        found: 406,
    },
];
