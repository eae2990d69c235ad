//! The built-in names: what each stands for, and in which module it stands.

use effect_meaning::{Comparison, Constructor, Operation};
use name_uses::{
    ATOMIC_TYPE, Builtin, DEEP_TYPE, DOMAIN_TYPE, EFFECT_TYPE, GREATEST, LEAST, SHALLOW_TYPE, Value,
};

/// The modules.
#[derive(Clone, Copy, Debug, PartialEq, Eq)]
pub enum Module {
    Effect,
    EffectDeep,
    EffectShallow,
    Domain,
    Atomic,
    List,
    Queue,
    Fiberq,
    String,
    Array,
    Char,
}

/// A name of a module, and what it stands for.
#[derive(Clone, Copy)]
pub struct Named<M: Copy> {
    pub name: &'static [u8],
    pub meaning: M,
}

/// What a value of a module stands for.
#[derive(Clone, Copy)]
pub enum ModuleValue {
    Known(Value),
    /// A definition of the prelude, by its name there.
    Prelude(&'static [u8]),
}

macro_rules! taking {
    ($operation:expr, $arguments:expr) => {
        Value::Builtin(Builtin {
            operation: $operation,
            arguments: $arguments,
        })
    };
}

static PLAIN_VALUES: [Named<Value>; 28] = [
    Named {
        name: b"min",
        meaning: taking!(Operation::Minimum, 2),
    },
    Named {
        name: b"max",
        meaning: taking!(Operation::Maximum, 2),
    },
    Named {
        name: b"abs",
        meaning: taking!(Operation::Absolute, 1),
    },
    Named {
        name: b"succ",
        meaning: taking!(Operation::Successor, 1),
    },
    Named {
        name: b"pred",
        meaning: taking!(Operation::Predecessor, 1),
    },
    Named {
        name: b"compare",
        meaning: taking!(Operation::Compare(Comparison::Compare), 2),
    },
    Named {
        name: b"not",
        meaning: taking!(Operation::Not, 1),
    },
    Named {
        name: b"fst",
        meaning: taking!(Operation::First, 1),
    },
    Named {
        name: b"snd",
        meaning: taking!(Operation::Second, 1),
    },
    Named {
        name: b"ignore",
        meaning: taking!(Operation::Ignore, 1),
    },
    Named {
        name: b"ref",
        meaning: taking!(Operation::MakeReference, 1),
    },
    Named {
        name: b"incr",
        meaning: taking!(Operation::IncrementReference, 1),
    },
    Named {
        name: b"decr",
        meaning: taking!(Operation::DecrementReference, 1),
    },
    Named {
        name: b"raise",
        meaning: taking!(Operation::Raise, 1),
    },
    Named {
        name: b"failwith",
        meaning: taking!(Operation::FailWith, 1),
    },
    Named {
        name: b"invalid_arg",
        meaning: taking!(Operation::InvalidArgument, 1),
    },
    Named {
        name: b"exit",
        meaning: taking!(Operation::Exit, 1),
    },
    Named {
        name: b"print_int",
        meaning: taking!(Operation::PrintInteger, 1),
    },
    Named {
        name: b"print_char",
        meaning: taking!(Operation::PrintCharacter, 1),
    },
    Named {
        name: b"print_string",
        meaning: taking!(Operation::PrintString, 1),
    },
    Named {
        name: b"print_endline",
        meaning: taking!(Operation::PrintLine, 1),
    },
    Named {
        name: b"print_newline",
        meaning: taking!(Operation::PrintNewline, 1),
    },
    Named {
        name: b"string_of_int",
        meaning: taking!(Operation::StringOfInteger, 1),
    },
    Named {
        name: b"c_iter",
        meaning: taking!(Operation::CallIterate, 2),
    },
    Named {
        name: b"c_fold",
        meaning: taking!(Operation::CallFold, 3),
    },
    Named {
        name: b"c_try",
        meaning: taking!(Operation::CallTry, 1),
    },
    Named {
        name: b"max_int",
        meaning: Value::Integer(GREATEST),
    },
    Named {
        name: b"min_int",
        meaning: Value::Integer(LEAST),
    },
];

static EFFECT_VALUES: [Named<ModuleValue>; 1] = [Named {
    name: b"perform",
    meaning: ModuleValue::Known(taking!(Operation::Perform, 1)),
}];

static EFFECT_DEEP_VALUES: [Named<ModuleValue>; 4] = [
    Named {
        name: b"continue",
        meaning: ModuleValue::Known(taking!(Operation::Continue, 2)),
    },
    Named {
        name: b"discontinue",
        meaning: ModuleValue::Known(taking!(Operation::Discontinue, 2)),
    },
    Named {
        name: b"match_with",
        meaning: ModuleValue::Known(Value::TakesHandler),
    },
    Named {
        name: b"try_with",
        meaning: ModuleValue::Known(Value::TakesHandler),
    },
];

static EFFECT_SHALLOW_VALUES: [Named<ModuleValue>; 3] = [
    Named {
        name: b"fiber",
        meaning: ModuleValue::Known(taking!(Operation::Fiber, 1)),
    },
    Named {
        name: b"continue_with",
        meaning: ModuleValue::Known(Value::TakesHandler),
    },
    Named {
        name: b"discontinue_with",
        meaning: ModuleValue::Known(Value::TakesHandler),
    },
];

static DOMAIN_VALUES: [Named<ModuleValue>; 3] = [
    Named {
        name: b"spawn",
        meaning: ModuleValue::Known(taking!(Operation::Spawn, 1)),
    },
    Named {
        name: b"join",
        meaning: ModuleValue::Known(taking!(Operation::Join, 1)),
    },
    Named {
        name: b"cpu_relax",
        meaning: ModuleValue::Known(taking!(Operation::Relax, 1)),
    },
];

static ATOMIC_VALUES: [Named<ModuleValue>; 8] = [
    Named {
        name: b"make",
        meaning: ModuleValue::Known(taking!(Operation::AtomicMake, 1)),
    },
    Named {
        name: b"get",
        meaning: ModuleValue::Known(taking!(Operation::AtomicGet, 1)),
    },
    Named {
        name: b"set",
        meaning: ModuleValue::Known(taking!(Operation::AtomicSet, 2)),
    },
    Named {
        name: b"exchange",
        meaning: ModuleValue::Known(taking!(Operation::AtomicExchange, 2)),
    },
    Named {
        name: b"compare_and_set",
        meaning: ModuleValue::Known(taking!(Operation::AtomicCompareAndSet, 3)),
    },
    Named {
        name: b"fetch_and_add",
        meaning: ModuleValue::Known(taking!(Operation::AtomicFetchAndAdd, 2)),
    },
    Named {
        name: b"incr",
        meaning: ModuleValue::Known(taking!(Operation::AtomicIncrement, 1)),
    },
    Named {
        name: b"decr",
        meaning: ModuleValue::Known(taking!(Operation::AtomicDecrement, 1)),
    },
];

static LIST_VALUES: [Named<ModuleValue>; 8] = [
    Named {
        name: b"length_from",
        meaning: ModuleValue::Prelude(b"list_length_from"),
    },
    Named {
        name: b"length",
        meaning: ModuleValue::Prelude(b"list_length"),
    },
    Named {
        name: b"rev_onto",
        meaning: ModuleValue::Prelude(b"list_rev_onto"),
    },
    Named {
        name: b"rev",
        meaning: ModuleValue::Prelude(b"list_rev"),
    },
    Named {
        name: b"append",
        meaning: ModuleValue::Prelude(b"list_append"),
    },
    Named {
        name: b"map",
        meaning: ModuleValue::Prelude(b"list_map"),
    },
    Named {
        name: b"iter",
        meaning: ModuleValue::Prelude(b"list_iter"),
    },
    Named {
        name: b"fold_left",
        meaning: ModuleValue::Prelude(b"list_fold_left"),
    },
];

static QUEUE_VALUES: [Named<ModuleValue>; 7] = [
    Named {
        name: b"create",
        meaning: ModuleValue::Prelude(b"queue_create"),
    },
    Named {
        name: b"push",
        meaning: ModuleValue::Prelude(b"queue_push"),
    },
    Named {
        name: b"add",
        meaning: ModuleValue::Prelude(b"queue_add"),
    },
    Named {
        name: b"is_empty",
        meaning: ModuleValue::Prelude(b"queue_is_empty"),
    },
    Named {
        name: b"length",
        meaning: ModuleValue::Prelude(b"queue_length"),
    },
    Named {
        name: b"pop",
        meaning: ModuleValue::Prelude(b"queue_pop"),
    },
    Named {
        name: b"take",
        meaning: ModuleValue::Prelude(b"queue_take"),
    },
];

static FIBERQ_VALUES: [Named<ModuleValue>; 5] = [
    Named {
        name: b"push",
        meaning: ModuleValue::Known(taking!(Operation::QueuePush, 1)),
    },
    Named {
        name: b"take_from",
        meaning: ModuleValue::Known(taking!(Operation::QueueTake, 1)),
    },
    Named {
        name: b"self",
        meaning: ModuleValue::Known(taking!(Operation::QueueSelf, 1)),
    },
    Named {
        name: b"slots",
        meaning: ModuleValue::Known(taking!(Operation::QueueSlots, 1)),
    },
    Named {
        name: b"steal",
        meaning: ModuleValue::Prelude(b"fiberq_steal"),
    },
];

static STRING_VALUES: [Named<ModuleValue>; 3] = [
    Named {
        name: b"length",
        meaning: ModuleValue::Known(taking!(Operation::StringLength, 1)),
    },
    Named {
        name: b"get",
        meaning: ModuleValue::Known(taking!(Operation::StringGet, 2)),
    },
    Named {
        name: b"sub",
        meaning: ModuleValue::Known(taking!(Operation::StringSub, 3)),
    },
];

static ARRAY_VALUES: [Named<ModuleValue>; 4] = [
    Named {
        name: b"make",
        meaning: ModuleValue::Known(taking!(Operation::ArrayMake, 2)),
    },
    Named {
        name: b"length",
        meaning: ModuleValue::Known(taking!(Operation::ArrayLength, 1)),
    },
    Named {
        name: b"get",
        meaning: ModuleValue::Known(taking!(Operation::ArrayGet, 2)),
    },
    Named {
        name: b"set",
        meaning: ModuleValue::Known(taking!(Operation::ArraySet, 3)),
    },
];

static CHAR_VALUES: [Named<ModuleValue>; 2] = [
    Named {
        name: b"code",
        meaning: ModuleValue::Known(taking!(Operation::CharacterCode, 1)),
    },
    Named {
        name: b"chr",
        meaning: ModuleValue::Known(taking!(Operation::CharacterOfCode, 1)),
    },
];

/// The values that stand in no module.
pub fn plain_values() -> &'static [Named<Value>] {
    &PLAIN_VALUES
}

/// The values of a module.
pub fn values_of(module: Module) -> &'static [Named<ModuleValue>] {
    match module {
        Module::Effect => &EFFECT_VALUES,
        Module::EffectDeep => &EFFECT_DEEP_VALUES,
        Module::EffectShallow => &EFFECT_SHALLOW_VALUES,
        Module::Domain => &DOMAIN_VALUES,
        Module::Atomic => &ATOMIC_VALUES,
        Module::List => &LIST_VALUES,
        Module::Queue => &QUEUE_VALUES,
        Module::Fiberq => &FIBERQ_VALUES,
        Module::String => &STRING_VALUES,
        Module::Array => &ARRAY_VALUES,
        Module::Char => &CHAR_VALUES,
    }
}

static PLAIN_TYPES: [Named<u32>; 10] = [
    Named {
        name: b"int",
        meaning: 0,
    },
    Named {
        name: b"bool",
        meaning: 1,
    },
    Named {
        name: b"char",
        meaning: 2,
    },
    Named {
        name: b"string",
        meaning: 3,
    },
    Named {
        name: b"unit",
        meaning: 4,
    },
    Named {
        name: b"exn",
        meaning: 5,
    },
    Named {
        name: b"list",
        meaning: 6,
    },
    Named {
        name: b"option",
        meaning: 7,
    },
    Named {
        name: b"ref",
        meaning: 8,
    },
    Named {
        name: b"array",
        meaning: 9,
    },
];

/// The types that stand in no module, by their rows.
pub fn plain_types() -> &'static [Named<u32>] {
    &PLAIN_TYPES
}

static PLAIN_CONSTRUCTORS: [Named<Constructor>; 8] = [
    Named {
        name: b"None",
        meaning: Constructor::Variant(0),
    },
    Named {
        name: b"Some",
        meaning: Constructor::Variant(1),
    },
    Named {
        name: b"Not_found",
        meaning: Constructor::Exception(0),
    },
    Named {
        name: b"Failure",
        meaning: Constructor::Exception(1),
    },
    Named {
        name: b"Invalid_argument",
        meaning: Constructor::Exception(2),
    },
    Named {
        name: b"Division_by_zero",
        meaning: Constructor::Exception(3),
    },
    Named {
        name: b"Match_failure",
        meaning: Constructor::Exception(4),
    },
    Named {
        name: b"Exit",
        meaning: Constructor::Exception(5),
    },
];

/// The constructors that stand in no module.
pub fn plain_constructors() -> &'static [Named<Constructor>] {
    &PLAIN_CONSTRUCTORS
}

static EFFECT_CONSTRUCTORS: [Named<Constructor>; 2] = [
    Named {
        name: b"Unhandled",
        meaning: Constructor::Exception(6),
    },
    Named {
        name: b"Continuation_already_resumed",
        meaning: Constructor::Exception(7),
    },
];

static QUEUE_CONSTRUCTORS: [Named<Constructor>; 1] = [Named {
    name: b"Empty",
    meaning: Constructor::Exception(8),
}];

static FIBERQ_CONSTRUCTORS: [Named<Constructor>; 1] = [Named {
    name: b"Full",
    meaning: Constructor::Exception(9),
}];

/// The constructors of a module.
pub fn constructors_of(module: Module) -> &'static [Named<Constructor>] {
    match module {
        Module::Effect => &EFFECT_CONSTRUCTORS,
        Module::Queue => &QUEUE_CONSTRUCTORS,
        Module::Fiberq => &FIBERQ_CONSTRUCTORS,
        _ => &[],
    }
}

/// The one type of a module, if it has one. The type of queues is a type of the prelude.
#[derive(Clone, Copy)]
pub enum ModuleType {
    Row(u32),
    /// A type of the prelude, by its name there.
    Prelude(&'static [u8]),
}

static T: [Named<ModuleType>; 4] = [
    Named {
        name: b"t",
        meaning: ModuleType::Row(EFFECT_TYPE),
    },
    Named {
        name: b"t",
        meaning: ModuleType::Row(DOMAIN_TYPE),
    },
    Named {
        name: b"t",
        meaning: ModuleType::Row(ATOMIC_TYPE),
    },
    Named {
        name: b"t",
        meaning: ModuleType::Prelude(b"queue_t"),
    },
];

static CONTINUATION: [Named<ModuleType>; 2] = [
    Named {
        name: b"continuation",
        meaning: ModuleType::Row(DEEP_TYPE),
    },
    Named {
        name: b"continuation",
        meaning: ModuleType::Row(SHALLOW_TYPE),
    },
];

/// The type of a module, if it has one.
pub fn type_of(module: Module) -> Option<&'static Named<ModuleType>> {
    match module {
        Module::Effect => Some(&T[0]),
        Module::Domain => Some(&T[1]),
        Module::Atomic => Some(&T[2]),
        Module::Queue => Some(&T[3]),
        Module::EffectDeep => Some(&CONTINUATION[0]),
        Module::EffectShallow => Some(&CONTINUATION[1]),
        _ => None,
    }
}

static MODULES: [Named<Module>; 9] = [
    Named {
        name: b"Effect",
        meaning: Module::Effect,
    },
    Named {
        name: b"Domain",
        meaning: Module::Domain,
    },
    Named {
        name: b"Atomic",
        meaning: Module::Atomic,
    },
    Named {
        name: b"List",
        meaning: Module::List,
    },
    Named {
        name: b"Queue",
        meaning: Module::Queue,
    },
    Named {
        name: b"Fiberq",
        meaning: Module::Fiberq,
    },
    Named {
        name: b"String",
        meaning: Module::String,
    },
    Named {
        name: b"Array",
        meaning: Module::Array,
    },
    Named {
        name: b"Char",
        meaning: Module::Char,
    },
];

static EFFECT_MODULES: [Named<Module>; 2] = [
    Named {
        name: b"Deep",
        meaning: Module::EffectDeep,
    },
    Named {
        name: b"Shallow",
        meaning: Module::EffectShallow,
    },
];

/// What a name stands for in a list of names.
pub fn find<M: Copy>(names: &[Named<M>], name: &[u8]) -> Option<M> {
    for named in names {
        if named.name == name {
            return Some(named.meaning);
        }
    }
    None
}

/// The module of this name. The modules of `Effect` have their short names once it was opened.
pub fn module_named(name: &[u8], effect_opened: bool) -> Option<Module> {
    match find(&MODULES, name) {
        Some(module) => Some(module),
        None if effect_opened => find(&EFFECT_MODULES, name),
        None => None,
    }
}

/// The module of this name in another one.
pub fn module_within(module: Module, name: &[u8]) -> Option<Module> {
    match module {
        Module::Effect => find(&EFFECT_MODULES, name),
        _ => None,
    }
}
