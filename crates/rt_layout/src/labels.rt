//! The labels of the runtime's code, in the order in which it stands.
//!
//! "Linked by x5" says that a routine returns to the address in x5; where nothing is said of that, it
//! returns by x1, with its result in x10, or it doesn't return.

// Memory that is asked for.

/// Makes a block of x7 words, whatever its size: x30. Linked by x5.
pub const ALLOC_LARGE: u32 = 0;
/// Where the block is larger than the heap: the cursor stays.
pub const TOO_LARGE: u32 = 1;
/// The run ends: x28 words would be in use, x7 of them asked for.
pub const HEAP_FULL: u32 = 2;

// Exceptions.

/// Puts an exception frame into the slot at x6. Linked by x5: the handler's code is there, and the body's four bytes behind.
pub const PUSH_TRY: u32 = 3;
/// The body's value meets its frame, whose word is in x6; x10 stays. Linked by x5.
pub const POP_TRY: u32 = 4;
/// Raises x10. The handler gets x10, and in x6 the address of its frame's slot.
pub const RAISE: u32 = 5;
/// Makes an exception of the constructor's word in x14 and the argument in x15, and raises it.
pub const RAISE_NEW: u32 = 6;
/// Raises `Match_failure` at the line x10 and the column x11.
pub const MATCH_FAIL: u32 = 7;

// Stacks of fibers.

/// Makes a fiber with the handler x12, the parent x14 and the foot x6: x30. Linked by x22.
pub const NEW_FIBER: u32 = 8;
/// Its stack is there.
pub const FIBER_MADE: u32 = 9;
/// No free stack of class 0 is there.
pub const FIBER_FRESH: u32 = 10;
/// Takes a stack of class x29: its high end is x30. Linked by x31.
pub const TAKE_STACK: u32 = 11;
/// The same from the heap.
pub const TAKE_FRESH: u32 = 12;
/// Its words are in x7.
pub const TAKE_SIZE: u32 = 13;
/// Puts the stack of the running fiber back. Linked by x31.
pub const FREE_FIBER: u32 = 14;
/// Moves the running fiber to a stack with room for x2, which is below the limit. Linked by x22.
pub const GROW: u32 = 15;
/// Tries the next class.
pub const GROW_NEXT: u32 = 16;
/// Copies a word.
pub const GROW_COPY: u32 = 17;
/// The run ends: x7 words are needed.
pub const STACK_FULL: u32 = 18;

// Continuations.

/// Makes a continuation of the innermost fiber x14 and the outermost fiber x13: x12. Linked by x31.
pub const MAKE_CONT: u32 = 19;
/// Takes the continuation x10: its innermost fiber is x13. Linked by x5.
pub const TAKE_CONT: u32 = 20;
/// It was taken before.
pub const TAKEN_BEFORE: u32 = 21;

// Handlers.

/// Applies the code x15 to x10, with the closure or the record x11, in a new fiber under the handler record x12.
pub const HANDLE: u32 = 22;
/// A fiber's foot for the value x10.
pub const RETURN_TO_PARENT: u32 = 23;
/// A fiber's foot for the exception x10.
pub const HANDLER_EXN: u32 = 24;
/// Performs the effect with the constructor's word x10 and the argument x12.
pub const PERFORM: u32 = 25;
/// Looks at the handler of the fiber x13.
pub const PERFORM_AT: u32 = 26;
/// The handler of the fiber x13 has no clause: goes on with the next fiber.
pub const REPERFORM: u32 = 27;
/// No handler has a clause: raises `Effect.Unhandled`.
pub const UNHANDLED: u32 = 28;
/// A clause of the record x11, of the fiber x13, matched: x12 is the continuation. Linked by x22.
pub const CAPTURE_DEEP: u32 = 29;
/// The same of a shallow handler, which doesn't stay with the continuation.
pub const CAPTURE_SHALLOW: u32 = 30;
/// Resumes the continuation x10 with the value x11.
pub const RESUME: u32 = 31;
/// Resumes the continuation x10 by raising x11.
pub const DISCONTINUE: u32 = 32;
/// Resumes the continuation x10 with the value x11 under the record x12.
pub const RESUME_WITH: u32 = 33;
/// Resumes the continuation x10 by raising x11 under the record x12.
pub const DISCONTINUE_WITH: u32 = 34;
/// Makes a continuation that waits for the argument of the function x10. (`FIBER` is a register.)
pub const WAITING_FIBER: u32 = 35;
/// The code of its first frame: x10 is the argument.
pub const FIBER_START: u32 = 36;

// Calls of C and callbacks.

/// Puts a C frame. Linked by x5.
pub const ENTER_C: u32 = 37;
/// The run ends: there are 255 C frames.
pub const CALLS_FULL: u32 = 38;
/// Drops the top C frame; x10 stays, x1 is where the C call returns to. Linked by x5.
pub const LEAVE_C: u32 = 39;
/// Makes a fresh fiber with the foot x6 the running one; x10 and x11 stay. Linked by x1.
pub const CALLBACK: u32 = 40;

// Operations, and the text of an uncaught exception.

/// Raises `Division_by_zero`.
pub const ZERO_DIVISOR: u32 = 41;
/// Raises `Failure` with the text x10.
pub const FAILWITH: u32 = 42;
/// Raises `Invalid_argument` with the text x10.
pub const INVALID_ARG: u32 = 43;
/// Ends the run with the status x10.
pub const EXIT: u32 = 44;
/// The decimal text of the integer x10: x13 is where it is, x14 how long. Linked by x5.
pub const DIGITS: u32 = 45;
/// x10 is the magnitude.
pub const DIGITS_BEGIN: u32 = 46;
/// The last digit of x10 goes before the others.
pub const DIGITS_NEXT: u32 = 47;
/// The text is whole.
pub const DIGITS_END: u32 = 48;
/// Prints an integer.
pub const PRINT_INT: u32 = 49;
/// Prints a character.
pub const PRINT_CHAR: u32 = 50;
/// Prints a string.
pub const PRINT_STRING: u32 = 51;
/// Prints a string and a newline.
pub const PRINT_ENDLINE: u32 = 52;
/// Prints a newline.
pub const PRINT_NEWLINE: u32 = 53;
/// Makes a string of x14 bytes, all 0: x30, its bytes at x16. Linked by x31.
pub const NEW_STRING: u32 = 54;
/// The decimal text of an integer.
pub const STRING_OF_INT: u32 = 55;
/// Copies x14 bytes at x13 to x16; the string x30 is the result.
pub const STRING_COPY: u32 = 56;
/// The strings x10 and x11 one behind the other.
pub const CONCAT: u32 = 57;
/// The part of the string x10 that begins at x11 and has x12 bytes.
pub const STRING_SUB: u32 = 58;
/// It isn't within the string.
pub const SUB_BAD: u32 = 59;
/// Raises `Invalid_argument` for an index.
pub const INDEX_BAD: u32 = 60;
/// Raises `Invalid_argument` for `Char.chr`.
pub const CHR_BAD: u32 = 61;
/// x6 is 1 where the strings x30 and x7 are equal, else 0. Linked by x5.
pub const STR_SAME: u32 = 62;
/// Looks at the next word.
pub const STR_WORDS: u32 = 63;
/// They are equal.
pub const STR_EQUAL: u32 = 64;
/// They aren't.
pub const STR_DIFFER: u32 = 65;
/// x6 is -1, 0 or 1 as the string x30 stands before, at or behind x31. Linked by x5.
pub const STR_ORDER: u32 = 66;
/// Looks at the next byte.
pub const STR_BYTES: u32 = 67;
/// x30 is the greater one.
pub const STR_GREATER: u32 = 68;
/// x30 has no byte left.
pub const STR_END: u32 = 69;
/// x30 is the less one.
pub const STR_LESS: u32 = 70;
/// x31 has none left either.
pub const STR_BOTH: u32 = 71;
/// An array of x10 elements x11.
pub const ARRAY_MAKE: u32 = 72;
/// Stores an element.
pub const MAKE_NEXT: u32 = 73;
/// All are stored.
pub const MAKE_END: u32 = 74;
/// The length is negative.
pub const MAKE_BAD: u32 = 75;
/// Applies the function x10 to each element of the array x11, in C.
pub const C_ITER: u32 = 76;
/// The next element.
pub const ITER_NEXT: u32 = 77;
/// A callback's value.
pub const ITER_VALUE: u32 = 78;
/// The C call returns x10.
pub const C_DONE: u32 = 79;
/// A callback's exception goes through the C call.
pub const C_AGAIN: u32 = 80;
/// Folds the function x10 from x11 over the array x12, in C.
pub const C_FOLD: u32 = 81;
/// The next element, with the value so far in x10.
pub const FOLD_NEXT: u32 = 82;
/// The function's value at the first argument.
pub const FOLD_SECOND: u32 = 83;
/// A callback's value.
pub const FOLD_VALUE: u32 = 84;
/// Applies the function x10 to unit, in C: `Some` of its value, or `None` where it raises.
pub const C_TRY: u32 = 85;
/// The callback's exception.
pub const TRY_EXN: u32 = 86;
/// The callback's value.
pub const TRY_VALUE: u32 = 87;
/// x10 is `Some` of x10.
pub const SOME: u32 = 88;
/// Puts the byte x6 at x16 where the text has room. Linked by x31.
pub const TEXT_BYTE: u32 = 89;
/// Ends the run by the exception x10.
pub const UNCAUGHT: u32 = 90;
/// The next byte of its name.
pub const TEXT_NAME: u32 = 91;
/// The next symbol of its argument.
pub const TEXT_NEXT: u32 = 92;
/// The symbols are in x1.
pub const TEXT_SYMBOL: u32 = 93;
/// Shows a part.
pub const TEXT_PART: u32 = 94;
/// The next digit.
pub const TEXT_DIGITS: u32 = 95;
/// A part that isn't shown.
pub const TEXT_OTHER: u32 = 96;
/// The part is shown.
pub const TEXT_SHOWN: u32 = 97;
/// A tuple.
pub const TEXT_OPEN: u32 = 98;
/// Its first part.
pub const TEXT_INSIDE: u32 = 99;
/// The bracket behind all parts.
pub const TEXT_CLOSE: u32 = 100;
/// The text is whole.
pub const TEXT_END: u32 = 101;
/// A string in quotes.
pub const TEXT_STRING: u32 = 102;
/// Its next byte.
pub const TEXT_CHAR: u32 = 103;
/// A backslash before it.
pub const TEXT_ESCAPE: u32 = 104;
/// The byte itself.
pub const TEXT_PLAIN: u32 = 105;
/// The quote behind it.
pub const TEXT_QUOTE: u32 = 106;

// The log and the end.

/// Puts the byte x6 at x16. Linked by x5.
pub const PUT_BYTE: u32 = 107;
/// Puts x14 bytes at x13 to x16. Linked by x5.
pub const PUT_BYTES: u32 = 108;
/// The next byte.
pub const PUT_NEXT: u32 = 109;
/// All are put.
pub const PUT_DONE: u32 = 110;
/// Prints x14 bytes at x13, and x12 newlines (0 or 1).
pub const PRINT_BYTES: u32 = 111;
/// Tries to take the lock.
pub const PRINT_LOCK: u32 = 112;
/// This hart has the lock.
pub const PRINT_LOCK_HAS: u32 = 113;
/// The bytes are put.
pub const PRINT_MOVE: u32 = 114;
/// The log has no room for them.
pub const LOG_FULL: u32 = 115;
/// Ends the run: x12 is the end, x13, x14 and x15 are its details.
pub const STOP_RUN: u32 = 116;
/// Tries to take the lock.
pub const STOP_LOCK: u32 = 117;
/// This hart has the lock.
pub const STOP_LOCK_HAS: u32 = 118;

// Domains.

/// A hart without a domain waits for one.
pub const IDLE: u32 = 119;
/// The foot of a domain's first fiber for the value x10.
pub const ROOT_VALUE: u32 = 120;
/// The same for the exception x10.
pub const ROOT_EXN: u32 = 121;
/// The domain ends with x10: x12 is 1 for a value, 2 for an exception.
pub const FINISH: u32 = 122;
/// It is the first domain: the run ends.
pub const FINISH_MAIN: u32 = 123;
/// Runs the closure x10 in a new domain: x10 is its block.
pub const SPAWN: u32 = 124;
/// The next slot.
pub const SPAWN_SLOT: u32 = 125;
/// x12 is the domain register of the slot.
pub const SPAWN_BLOCK: u32 = 126;
/// No slot is free.
pub const SPAWN_FULL: u32 = 127;
/// Waits for the domain x10: x10 is its value, or its exception is raised.
pub const JOIN: u32 = 128;

// Queues of continuations.

/// Puts the continuation x10 into this domain's queue.
pub const PUSH: u32 = 129;
/// Tries to.
pub const PUSH_AGAIN: u32 = 130;
/// The queue is full.
pub const PUSH_FULL: u32 = 131;
/// Takes a continuation from the queue of the domain in slot x10: `Some` of it, or `None`.
pub const TAKE_FROM: u32 = 132;
/// Tries to.
pub const TAKE_AGAIN: u32 = 133;
/// The queue is empty.
pub const TAKE_NONE: u32 = 134;
/// There is no such slot.
pub const TAKE_BAD: u32 = 135;

// The program's own.

/// The items of the program begin.
pub const ITEMS: u32 = 136;
/// The items of the program are done.
pub const ITEMS_END: u32 = 137;

/// The first label of compiled code: all those of the runtime are below.
pub const FIRST_CODE_LABEL: u32 = 1024;
