//! Worked programs, and what becomes of them.

/// A program: the words behind `run a.ml`, its text, and the status, what it prints, and the line on
/// standard error.
pub struct Worked {
    pub options: &'static [&'static str],
    pub text: &'static str,
    pub status: u8,
    pub printed: &'static str,
    pub line: &'static str,
}

/// Programs of each kind.
pub const WORKED: &[Worked] = &[
    // Functions, data and patterns.
    Worked {
        options: &[],
        text: "let () = print_int (max_int + 1)\n",
        status: 0,
        printed: "-4611686018427387904",
        line: "",
    },
    Worked {
        options: &[],
        text: "let f x = print_int x; x\n\
               let () = print_int (f 1 + f 2)\n",
        status: 0,
        printed: "213",
        line: "",
    },
    Worked {
        options: &[],
        text: "let () = let (x, y) = (1, 2) in print_int (x + y)\n",
        status: 0,
        printed: "3",
        line: "",
    },
    Worked {
        options: &[],
        text: "let () = match 1, 2 with x, _ -> print_int x\n",
        status: 0,
        printed: "1",
        line: "",
    },
    Worked {
        options: &[],
        text: "let () = raise Not_found\n",
        status: 2,
        printed: "",
        line: "Fatal error: exception Not_found\n",
    },
    Worked {
        options: &[],
        text: "let () = failwith \"a\"\n",
        status: 2,
        printed: "",
        line: "Fatal error: exception Failure(\"a\")\n",
    },
    // Effects, deep and shallow.
    Worked {
        options: &[],
        text: "open Effect\n\
               open Effect.Deep\n\
               type _ Effect.t += Xchg : int -> int t\n\
               let comp () = perform (Xchg 0) + perform (Xchg 1)\n\
               let () = print_int (try_with comp () { effc = fun (type a) (eff : a t) ->\n\
               \x20 match eff with\n\
               \x20 | Xchg n -> Some (fun (k : (a, _) continuation) -> continue k (n + 1))\n\
               \x20 | _ -> None })\n",
        status: 0,
        printed: "3",
        line: "",
    },
    Worked {
        options: &[],
        text: "open Effect\n\
               open Effect.Deep\n\
               type _ Effect.t += E : unit Effect.t\n\
               let () = try perform E with Unhandled _ -> print_int 7\n",
        status: 0,
        printed: "7",
        line: "",
    },
    Worked {
        options: &[],
        text: "open Effect\n\
               open Effect.Deep\n\
               type _ Effect.t += E : unit Effect.t | F : unit Effect.t\n\
               let () = match (try perform E; 1 with Unhandled _ -> 7) with\n\
               \x20 | v -> print_int v\n\
               \x20 | effect F, k -> continue k ()\n",
        status: 0,
        printed: "7",
        line: "",
    },
    Worked {
        options: &[],
        text: "open Effect\n\
               open Effect.Deep\n\
               type _ Effect.t += Stop : unit Effect.t\n\
               let () = match perform Stop with\n\
               \x20 | () -> print_string \"once \"\n\
               \x20 | effect Stop, k ->\n\
               \x20   continue k ();\n\
               \x20   (try continue k () with Continuation_already_resumed -> print_string \"already\")\n",
        status: 0,
        printed: "once already",
        line: "",
    },
    Worked {
        options: &[],
        text: "open Effect\n\
               open Effect.Deep\n\
               type _ Effect.t += E : int Effect.t\n\
               let () = print_int (match (try perform E with Not_found -> 5) with\n\
               \x20 | v -> v\n\
               \x20 | effect E, k -> discontinue k Not_found)\n",
        status: 0,
        printed: "5",
        line: "",
    },
    Worked {
        options: &[],
        text: "open Effect\n\
               open Effect.Deep\n\
               type _ Effect.t += E : int Effect.t | F : int Effect.t\n\
               let () = print_int (\n\
               \x20 match (match perform F + perform E with v -> v * 10 | effect F, k -> continue k 1) with\n\
               \x20 | v -> v\n\
               \x20 | effect E, k -> continue k 4)\n",
        status: 0,
        printed: "50",
        line: "",
    },
    // C calls and callbacks.
    Worked {
        options: &[],
        text: "open Effect\n\
               open Effect.Deep\n\
               type _ Effect.t += E : unit Effect.t\n\
               let () = match c_iter (fun _ -> try perform E with Unhandled _ -> print_string \"u\") [|0|] with\n\
               \x20 | () -> ()\n\
               \x20 | effect E, k -> continue k ()\n",
        status: 0,
        printed: "u",
        line: "",
    },
    Worked {
        options: &[],
        text: "let () =\n\
               \x20 (try c_iter (fun n -> if n = 2 then raise Not_found else print_int n) [|1; 2; 3|]\n\
               \x20  with Not_found -> print_string \"n\");\n\
               \x20 c_iter print_int [|4; 5|]\n",
        status: 0,
        printed: "1n45",
        line: "",
    },
    Worked {
        options: &[],
        text: "open Effect\n\
               open Effect.Shallow\n\
               type _ Effect.t += Get : int Effect.t\n\
               let rec run_a k v = continue_with k v\n\
               \x20 { retc = (fun () -> ()); exnc = raise;\n\
               \x20   effc = fun (type a) (eff : a Effect.t) -> match eff with\n\
               \x20     | Get -> Some (fun (k : (a, _) continuation) -> run_b k (v + 1))\n\
               \x20     | _ -> None }\n\
               and run_b k v = continue_with k v\n\
               \x20 { retc = (fun () -> ()); exnc = raise;\n\
               \x20   effc = fun (type a) (eff : a Effect.t) -> match eff with\n\
               \x20     | Get -> Some (fun (k : (a, _) continuation) -> run_a k (v + 1))\n\
               \x20     | _ -> None }\n\
               let () = run_a (fiber (fun n ->\n\
               \x20 print_int n; print_int (perform Get); print_int (perform Get))) 1\n",
        status: 0,
        printed: "123",
        line: "",
    },
    Worked {
        options: &[],
        text: "open Effect\n\
               open Effect.Deep\n\
               type _ Effect.t += Fork : (unit -> unit) -> unit Effect.t | Yield : unit Effect.t\n\
               let run main =\n\
               \x20 let run_q = Queue.create () in\n\
               \x20 let enqueue k = Queue.push (fun () -> continue k ()) run_q in\n\
               \x20 let dequeue () = if Queue.is_empty run_q then () else (Queue.pop run_q) () in\n\
               \x20 let rec spawn f =\n\
               \x20   match f () with\n\
               \x20   | () -> dequeue ()\n\
               \x20   | effect Yield, k -> enqueue k; dequeue ()\n\
               \x20   | effect (Fork g), k -> enqueue k; spawn g\n\
               \x20 in\n\
               \x20 spawn main\n\
               let task name () =\n\
               \x20 for i = 1 to 3 do\n\
               \x20   print_string name; print_int i; print_string \" \"; perform Yield\n\
               \x20 done\n\
               let () = run (fun () -> perform (Fork (task \"a\")); perform (Fork (task \"b\")))\n",
        status: 0,
        printed: "a1 b1 a2 b2 a3 b3 ",
        line: "",
    },
    // Runs that are cut short.
    Worked {
        options: &["--budget", "1000"],
        text: "let () = while true do () done\n",
        status: 74,
        printed: "",
        line: "error: budget spent 0 1000\n",
    },
    // Integers.
    Worked {
        options: &[],
        text: "let () = print_int (min_int / (-1))\n",
        status: 0,
        printed: "-4611686018427387904",
        line: "",
    },
    Worked {
        options: &[],
        text: "let () = print_int ((-1) lsr 1)\n",
        status: 0,
        printed: "4611686018427387903",
        line: "",
    },
    Worked {
        options: &[],
        text: "let () = print_int (try 1 / 0 with Division_by_zero -> 8)\n",
        status: 0,
        printed: "8",
        line: "",
    },
    // Tail calls, clauses, strings and stacks.
    Worked {
        options: &[],
        text: "open Effect\n\
               open Effect.Deep\n\
               type _ Effect.t += E : int Effect.t\n\
               let () =\n\
               \x20 try\n\
               \x20   match (try perform E with Not_found -> 1) with\n\
               \x20   | v -> print_int v\n\
               \x20   | effect E, _ -> print_int 2; raise Not_found\n\
               \x20 with Not_found -> print_string \"f\"\n",
        status: 0,
        printed: "2f",
        line: "",
    },
    Worked {
        options: &[],
        text: "let () = print_string (String.sub \"effects\" 0 3 ^ string_of_int (-12))\n",
        status: 0,
        printed: "eff-12",
        line: "",
    },
    Worked {
        options: &[],
        text: "let () = print_int (c_fold (fun a b -> 10 * a + b) 0 [|1; 2; 3|])\n",
        status: 0,
        printed: "123",
        line: "",
    },
    Worked {
        options: &[],
        text: "let () = print_int (match c_try (fun () -> raise Exit) with None -> 4 | Some n -> n)\n",
        status: 0,
        printed: "4",
        line: "",
    },
    // Domains and queues of fibers.
    Worked {
        options: &[],
        text: "open Effect\n\
               open Effect.Deep\n\
               type _ Effect.t += Ask : int Effect.t\n\
               let store = ref None\n\
               let _ = match 2 + perform Ask with\n\
               \x20 | v -> v\n\
               \x20 | effect Ask, k -> store := Some k; 0\n\
               let () = match !store with\n\
               \x20 | None -> ()\n\
               \x20 | Some k -> print_int (Domain.join (Domain.spawn (fun () -> continue k 40)))\n",
        status: 0,
        printed: "42",
        line: "",
    },
    Worked {
        options: &["--domains", "1"],
        text: "let () = try ignore (Domain.spawn (fun () -> ())) with Failure s -> print_string s\n",
        status: 0,
        printed: "Domain.spawn",
        line: "",
    },
    Worked {
        options: &["--domains", "2", "--turns", "1"],
        text: "let rec go n = if n = 0 then print_string \"ok\"\n\
               \x20 else begin Domain.join (Domain.spawn (fun () -> ())); go (n - 1) end\n\
               let () = go 20\n",
        status: 0,
        printed: "ok",
        line: "",
    },
    Worked {
        options: &["--stack", "512", "--turns", "7"],
        text: "open Effect\n\
               open Effect.Deep\n\
               type _ Effect.t += Pause : unit Effect.t\n\
               let sum = Atomic.make 0\n\
               let park i = match perform Pause; ignore (Atomic.fetch_and_add sum i) with\n\
               \x20 | () -> ()\n\
               \x20 | effect Pause, k -> Fiberq.push k\n\
               let rec drain () = match Fiberq.steal () with\n\
               \x20 | None -> ()\n\
               \x20 | Some k -> continue k (); drain ()\n\
               let () =\n\
               \x20 for i = 1 to 100 do park i done;\n\
               \x20 let d = Domain.spawn drain in\n\
               \x20 drain (); Domain.join d; print_int (Atomic.get sum)\n",
        status: 0,
        printed: "5050",
        line: "",
    },
    Worked {
        options: &["--turns", "10"],
        text: "let c1 = Atomic.make None\n\
               let c2 = Atomic.make None\n\
               let rec get c = match Atomic.get c with Some d -> d | None -> get c\n\
               let () =\n\
               \x20 let d1 = Domain.spawn (fun () -> Domain.join (get c2)) in\n\
               \x20 let d2 = Domain.spawn (fun () -> Domain.join (get c1)) in\n\
               \x20 Atomic.set c1 (Some d1); Atomic.set c2 (Some d2);\n\
               \x20 Domain.join d1\n",
        status: 75,
        printed: "",
        line: "error: deadlock\n",
    },
];

/// Programs that take much memory, or many instructions.
pub const LARGE: &[Worked] = &[
    Worked {
        options: &["--stack", "1048576", "--heap", "8388608"],
        text: "open Effect\n\
               open Effect.Deep\n\
               type _ Effect.t += E : int Effect.t\n\
               let rec deep n = if n = 0 then raise Not_found else 1 + deep (n - 1)\n\
               let () = print_int (match (try deep 20000 with Not_found -> perform E) with\n\
               \x20 | v -> v\n\
               \x20 | effect E, k -> continue k 9)\n",
        status: 0,
        printed: "9",
        line: "",
    },
    Worked {
        options: &["--heap", "8388608", "--stack", "8192"],
        text: "let rec f _ = c_iter f [|0|]\n\
               let () = f 0\n",
        status: 72,
        printed: "",
        line: "error: calls full 255\n",
    },
    Worked {
        options: &["--stack", "256"],
        text: "let rec f n = if n = 0 then 7 else f (n - 1)\n\
               let () = print_int (f 100000)\n",
        status: 0,
        printed: "7",
        line: "",
    },
    Worked {
        options: &[],
        text: "open Effect\n\
               open Effect.Deep\n\
               type _ Effect.t += E : unit Effect.t\n\
               let () =\n\
               \x20 for i = 1 to 20000 do\n\
               \x20   match perform E with () -> () | effect E, k -> continue k ()\n\
               \x20 done;\n\
               \x20 print_string \"done\"\n",
        status: 0,
        printed: "done",
        line: "",
    },
];
