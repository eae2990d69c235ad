//! The prelude: definitions in the source language that stand before each program.

ghost use Rattle.std.specs.Prelude.{◌≡◌};
ghost use Rattle.prelude_ml.specs.PreludeText.{prelude_text};

const TEXT: &str = "\
let rec list_length_from n l = match l with [] -> n | _ :: r -> list_length_from (n + 1) r
let list_length l = list_length_from 0 l
let rec list_rev_onto a l = match l with [] -> a | x :: r -> list_rev_onto (x :: a) r
let list_rev l = list_rev_onto [] l
let rec list_append a b = match a with [] -> b | x :: r -> x :: list_append r b
let rec list_map f l = match l with [] -> [] | x :: r -> let y = f x in y :: list_map f r
let rec list_iter f l = match l with [] -> () | x :: r -> f x; list_iter f r
let rec list_fold_left f a l = match l with [] -> a | x :: r -> list_fold_left f (f a x) r
type 'a queue_t = { mutable front : 'a list; mutable back : 'a list; mutable size : int }
let queue_create () = { front = []; back = []; size = 0 }
let queue_push x q = q.back <- x :: q.back; q.size <- q.size + 1
let queue_add x q = queue_push x q
let queue_is_empty q = q.size = 0
let queue_length q = q.size
let rec queue_pop q = match q.front with
  | x :: r -> q.front <- r; q.size <- q.size - 1; x
  | [] -> if q.size = 0 then raise Queue.Empty
    else begin q.front <- list_rev q.back; q.back <- []; queue_pop q end
let queue_take q = queue_pop q
let rec fiberq_steal_from i n = if n = 0 then None
  else match Fiberq.take_from (i mod Fiberq.slots ()) with
  | Some k -> Some k
  | None -> fiberq_steal_from (i + 1) (n - 1)
let fiberq_steal () = fiberq_steal_from (Fiberq.self ()) (Fiberq.slots ())
";

/// The text of the prelude: the operations on lists, queues with the operations on them, and a search
/// through the queues of suspended fibers.
pub fn prelude() -> &'static str
    ensures { result.now ≡ prelude_text }
{
    TEXT
}
