//! The prelude as a program: the nodes and the items of the tree that its text has.

use fx_base::Place;
use ml_syntax::{
    BinaryOperator, Binding, Clause, FieldDefinition, Item, Literal, LiteralKind, LongName, Name,
    NamedPart, Node, Nodes, Prog, Sequence, Text, TypeBody, TypeDefinition,
};
use std::alloc::{AllocError, Global};

macro_rules! place {
    ($line:expr, $column:expr) => {
        Place {
            line: $line,
            column: $column,
        }
    };
}

/// A field of a record expression, and the node that stands for it.
#[derive(Clone, Copy)]
struct Field {
    name: &'static [u8],
    place: Place,
    part: u32,
}

/// A form of the prelude. Numbers are those of nodes.
#[derive(Clone, Copy)]
enum Form {
    TypeVariable(&'static [u8]),
    TypeName(&'static [u8]),
    /// A type name with one argument.
    TypeApply(u32, &'static [u8]),
    PatternAny,
    PatternUnit,
    PatternNil,
    PatternName(&'static [u8]),
    PatternCons(u32, u32),
    /// A constructor with the pattern of its argument.
    PatternConstruct(&'static [u8], u32),
    PatternConstructor(&'static [u8]),
    Variable(&'static [u8]),
    /// A value of a module.
    ModuleVariable {
        module: &'static [u8],
        name: &'static [u8],
        name_place: Place,
    },
    Constructor(&'static [u8]),
    /// A constructor of a module.
    ModuleConstructor {
        module: &'static [u8],
        name: &'static [u8],
        name_place: Place,
    },
    /// A constructor with its argument.
    Construct(&'static [u8], u32),
    Integer(&'static [u8]),
    Unit,
    Nil,
    Bracket(u32),
    BeginEnd(u32),
    Apply(u32, &'static [u32]),
    Binary(BinaryOperator, u32, u32),
    Sequence(&'static [u32]),
    If(u32, u32, u32),
    Record(&'static [Field]),
    Field {
        record: u32,
        field: &'static [u8],
        field_place: Place,
    },
    SetField {
        record: u32,
        field: &'static [u8],
        field_place: Place,
        value: u32,
    },
    Let {
        name: &'static [u8],
        name_place: Place,
        value: u32,
        body: u32,
    },
    /// A subject, and the pattern and the body of each clause.
    Match(u32, &'static [(u32, u32)]),
}

/// A node of the prelude, and its place in the prelude's text.
#[derive(Clone, Copy)]
struct Entry {
    place: Place,
    form: Form,
}

/// A function that the prelude defines.
#[derive(Clone, Copy)]
struct Definition {
    place: Place,
    is_recursive: bool,
    name: &'static [u8],
    name_place: Place,
    parameters: &'static [u32],
    body: u32,
}

/// A field of the type of queues.
#[derive(Clone, Copy)]
struct QueueField {
    name: &'static [u8],
    place: Place,
    annotation: u32,
}

static NODES: [Entry; 238] = [
    Entry {
        place: place!(1, 26),
        form: Form::PatternName(b"n"),
    },
    Entry {
        place: place!(1, 28),
        form: Form::PatternName(b"l"),
    },
    Entry {
        place: place!(1, 38),
        form: Form::Variable(b"l"),
    },
    Entry {
        place: place!(1, 45),
        form: Form::PatternNil,
    },
    Entry {
        place: place!(1, 51),
        form: Form::Variable(b"n"),
    },
    Entry {
        place: place!(1, 55),
        form: Form::PatternAny,
    },
    Entry {
        place: place!(1, 60),
        form: Form::PatternName(b"r"),
    },
    Entry {
        place: place!(1, 57),
        form: Form::PatternCons(5, 6),
    },
    Entry {
        place: place!(1, 65),
        form: Form::Variable(b"list_length_from"),
    },
    Entry {
        place: place!(1, 83),
        form: Form::Variable(b"n"),
    },
    Entry {
        place: place!(1, 87),
        form: Form::Integer(b"1"),
    },
    Entry {
        place: place!(1, 85),
        form: Form::Binary(BinaryOperator::Add, 9, 10),
    },
    Entry {
        place: place!(1, 82),
        form: Form::Bracket(11),
    },
    Entry {
        place: place!(1, 90),
        form: Form::Variable(b"r"),
    },
    Entry {
        place: place!(1, 65),
        form: Form::Apply(8, &[12, 13]),
    },
    Entry {
        place: place!(1, 32),
        form: Form::Match(2, &[(3, 4), (7, 14)]),
    },
    Entry {
        place: place!(2, 17),
        form: Form::PatternName(b"l"),
    },
    Entry {
        place: place!(2, 21),
        form: Form::Variable(b"list_length_from"),
    },
    Entry {
        place: place!(2, 38),
        form: Form::Integer(b"0"),
    },
    Entry {
        place: place!(2, 40),
        form: Form::Variable(b"l"),
    },
    Entry {
        place: place!(2, 21),
        form: Form::Apply(17, &[18, 19]),
    },
    Entry {
        place: place!(3, 23),
        form: Form::PatternName(b"a"),
    },
    Entry {
        place: place!(3, 25),
        form: Form::PatternName(b"l"),
    },
    Entry {
        place: place!(3, 35),
        form: Form::Variable(b"l"),
    },
    Entry {
        place: place!(3, 42),
        form: Form::PatternNil,
    },
    Entry {
        place: place!(3, 48),
        form: Form::Variable(b"a"),
    },
    Entry {
        place: place!(3, 52),
        form: Form::PatternName(b"x"),
    },
    Entry {
        place: place!(3, 57),
        form: Form::PatternName(b"r"),
    },
    Entry {
        place: place!(3, 54),
        form: Form::PatternCons(26, 27),
    },
    Entry {
        place: place!(3, 62),
        form: Form::Variable(b"list_rev_onto"),
    },
    Entry {
        place: place!(3, 77),
        form: Form::Variable(b"x"),
    },
    Entry {
        place: place!(3, 82),
        form: Form::Variable(b"a"),
    },
    Entry {
        place: place!(3, 79),
        form: Form::Binary(BinaryOperator::Cons, 30, 31),
    },
    Entry {
        place: place!(3, 76),
        form: Form::Bracket(32),
    },
    Entry {
        place: place!(3, 85),
        form: Form::Variable(b"r"),
    },
    Entry {
        place: place!(3, 62),
        form: Form::Apply(29, &[33, 34]),
    },
    Entry {
        place: place!(3, 29),
        form: Form::Match(23, &[(24, 25), (28, 35)]),
    },
    Entry {
        place: place!(4, 14),
        form: Form::PatternName(b"l"),
    },
    Entry {
        place: place!(4, 18),
        form: Form::Variable(b"list_rev_onto"),
    },
    Entry {
        place: place!(4, 32),
        form: Form::Nil,
    },
    Entry {
        place: place!(4, 35),
        form: Form::Variable(b"l"),
    },
    Entry {
        place: place!(4, 18),
        form: Form::Apply(38, &[39, 40]),
    },
    Entry {
        place: place!(5, 21),
        form: Form::PatternName(b"a"),
    },
    Entry {
        place: place!(5, 23),
        form: Form::PatternName(b"b"),
    },
    Entry {
        place: place!(5, 33),
        form: Form::Variable(b"a"),
    },
    Entry {
        place: place!(5, 40),
        form: Form::PatternNil,
    },
    Entry {
        place: place!(5, 46),
        form: Form::Variable(b"b"),
    },
    Entry {
        place: place!(5, 50),
        form: Form::PatternName(b"x"),
    },
    Entry {
        place: place!(5, 55),
        form: Form::PatternName(b"r"),
    },
    Entry {
        place: place!(5, 52),
        form: Form::PatternCons(47, 48),
    },
    Entry {
        place: place!(5, 60),
        form: Form::Variable(b"x"),
    },
    Entry {
        place: place!(5, 65),
        form: Form::Variable(b"list_append"),
    },
    Entry {
        place: place!(5, 77),
        form: Form::Variable(b"r"),
    },
    Entry {
        place: place!(5, 79),
        form: Form::Variable(b"b"),
    },
    Entry {
        place: place!(5, 65),
        form: Form::Apply(51, &[52, 53]),
    },
    Entry {
        place: place!(5, 62),
        form: Form::Binary(BinaryOperator::Cons, 50, 54),
    },
    Entry {
        place: place!(5, 27),
        form: Form::Match(44, &[(45, 46), (49, 55)]),
    },
    Entry {
        place: place!(6, 18),
        form: Form::PatternName(b"f"),
    },
    Entry {
        place: place!(6, 20),
        form: Form::PatternName(b"l"),
    },
    Entry {
        place: place!(6, 30),
        form: Form::Variable(b"l"),
    },
    Entry {
        place: place!(6, 37),
        form: Form::PatternNil,
    },
    Entry {
        place: place!(6, 43),
        form: Form::Nil,
    },
    Entry {
        place: place!(6, 48),
        form: Form::PatternName(b"x"),
    },
    Entry {
        place: place!(6, 53),
        form: Form::PatternName(b"r"),
    },
    Entry {
        place: place!(6, 50),
        form: Form::PatternCons(62, 63),
    },
    Entry {
        place: place!(6, 66),
        form: Form::Variable(b"f"),
    },
    Entry {
        place: place!(6, 68),
        form: Form::Variable(b"x"),
    },
    Entry {
        place: place!(6, 66),
        form: Form::Apply(65, &[66]),
    },
    Entry {
        place: place!(6, 73),
        form: Form::Variable(b"y"),
    },
    Entry {
        place: place!(6, 78),
        form: Form::Variable(b"list_map"),
    },
    Entry {
        place: place!(6, 87),
        form: Form::Variable(b"f"),
    },
    Entry {
        place: place!(6, 89),
        form: Form::Variable(b"r"),
    },
    Entry {
        place: place!(6, 78),
        form: Form::Apply(69, &[70, 71]),
    },
    Entry {
        place: place!(6, 75),
        form: Form::Binary(BinaryOperator::Cons, 68, 72),
    },
    Entry {
        place: place!(6, 58),
        form: Form::Let {
            name: b"y",
            name_place: place!(6, 62),
            value: 67,
            body: 73,
        },
    },
    Entry {
        place: place!(6, 24),
        form: Form::Match(59, &[(60, 61), (64, 74)]),
    },
    Entry {
        place: place!(7, 19),
        form: Form::PatternName(b"f"),
    },
    Entry {
        place: place!(7, 21),
        form: Form::PatternName(b"l"),
    },
    Entry {
        place: place!(7, 31),
        form: Form::Variable(b"l"),
    },
    Entry {
        place: place!(7, 38),
        form: Form::PatternNil,
    },
    Entry {
        place: place!(7, 44),
        form: Form::Unit,
    },
    Entry {
        place: place!(7, 49),
        form: Form::PatternName(b"x"),
    },
    Entry {
        place: place!(7, 54),
        form: Form::PatternName(b"r"),
    },
    Entry {
        place: place!(7, 51),
        form: Form::PatternCons(81, 82),
    },
    Entry {
        place: place!(7, 59),
        form: Form::Variable(b"f"),
    },
    Entry {
        place: place!(7, 61),
        form: Form::Variable(b"x"),
    },
    Entry {
        place: place!(7, 59),
        form: Form::Apply(84, &[85]),
    },
    Entry {
        place: place!(7, 64),
        form: Form::Variable(b"list_iter"),
    },
    Entry {
        place: place!(7, 74),
        form: Form::Variable(b"f"),
    },
    Entry {
        place: place!(7, 76),
        form: Form::Variable(b"r"),
    },
    Entry {
        place: place!(7, 64),
        form: Form::Apply(87, &[88, 89]),
    },
    Entry {
        place: place!(7, 62),
        form: Form::Sequence(&[86, 90]),
    },
    Entry {
        place: place!(7, 25),
        form: Form::Match(78, &[(79, 80), (83, 91)]),
    },
    Entry {
        place: place!(8, 24),
        form: Form::PatternName(b"f"),
    },
    Entry {
        place: place!(8, 26),
        form: Form::PatternName(b"a"),
    },
    Entry {
        place: place!(8, 28),
        form: Form::PatternName(b"l"),
    },
    Entry {
        place: place!(8, 38),
        form: Form::Variable(b"l"),
    },
    Entry {
        place: place!(8, 45),
        form: Form::PatternNil,
    },
    Entry {
        place: place!(8, 51),
        form: Form::Variable(b"a"),
    },
    Entry {
        place: place!(8, 55),
        form: Form::PatternName(b"x"),
    },
    Entry {
        place: place!(8, 60),
        form: Form::PatternName(b"r"),
    },
    Entry {
        place: place!(8, 57),
        form: Form::PatternCons(99, 100),
    },
    Entry {
        place: place!(8, 65),
        form: Form::Variable(b"list_fold_left"),
    },
    Entry {
        place: place!(8, 80),
        form: Form::Variable(b"f"),
    },
    Entry {
        place: place!(8, 83),
        form: Form::Variable(b"f"),
    },
    Entry {
        place: place!(8, 85),
        form: Form::Variable(b"a"),
    },
    Entry {
        place: place!(8, 87),
        form: Form::Variable(b"x"),
    },
    Entry {
        place: place!(8, 83),
        form: Form::Apply(104, &[105, 106]),
    },
    Entry {
        place: place!(8, 82),
        form: Form::Bracket(107),
    },
    Entry {
        place: place!(8, 90),
        form: Form::Variable(b"r"),
    },
    Entry {
        place: place!(8, 65),
        form: Form::Apply(102, &[103, 108, 109]),
    },
    Entry {
        place: place!(8, 32),
        form: Form::Match(96, &[(97, 98), (101, 110)]),
    },
    Entry {
        place: place!(9, 37),
        form: Form::TypeVariable(b"'a"),
    },
    Entry {
        place: place!(9, 40),
        form: Form::TypeApply(112, b"list"),
    },
    Entry {
        place: place!(9, 61),
        form: Form::TypeVariable(b"'a"),
    },
    Entry {
        place: place!(9, 64),
        form: Form::TypeApply(114, b"list"),
    },
    Entry {
        place: place!(9, 85),
        form: Form::TypeName(b"int"),
    },
    Entry {
        place: place!(10, 18),
        form: Form::PatternUnit,
    },
    Entry {
        place: place!(10, 33),
        form: Form::Nil,
    },
    Entry {
        place: place!(10, 44),
        form: Form::Nil,
    },
    Entry {
        place: place!(10, 55),
        form: Form::Integer(b"0"),
    },
    Entry {
        place: place!(10, 23),
        form: Form::Record(&[
            Field {
                name: b"front",
                place: place!(10, 25),
                part: 118,
            },
            Field {
                name: b"back",
                place: place!(10, 37),
                part: 119,
            },
            Field {
                name: b"size",
                place: place!(10, 48),
                part: 120,
            },
        ]),
    },
    Entry {
        place: place!(11, 16),
        form: Form::PatternName(b"x"),
    },
    Entry {
        place: place!(11, 18),
        form: Form::PatternName(b"q"),
    },
    Entry {
        place: place!(11, 22),
        form: Form::Variable(b"q"),
    },
    Entry {
        place: place!(11, 32),
        form: Form::Variable(b"x"),
    },
    Entry {
        place: place!(11, 37),
        form: Form::Variable(b"q"),
    },
    Entry {
        place: place!(11, 37),
        form: Form::Field {
            record: 126,
            field: b"back",
            field_place: place!(11, 39),
        },
    },
    Entry {
        place: place!(11, 34),
        form: Form::Binary(BinaryOperator::Cons, 125, 127),
    },
    Entry {
        place: place!(11, 29),
        form: Form::SetField {
            record: 124,
            field: b"back",
            field_place: place!(11, 24),
            value: 128,
        },
    },
    Entry {
        place: place!(11, 45),
        form: Form::Variable(b"q"),
    },
    Entry {
        place: place!(11, 55),
        form: Form::Variable(b"q"),
    },
    Entry {
        place: place!(11, 55),
        form: Form::Field {
            record: 131,
            field: b"size",
            field_place: place!(11, 57),
        },
    },
    Entry {
        place: place!(11, 64),
        form: Form::Integer(b"1"),
    },
    Entry {
        place: place!(11, 62),
        form: Form::Binary(BinaryOperator::Add, 132, 133),
    },
    Entry {
        place: place!(11, 52),
        form: Form::SetField {
            record: 130,
            field: b"size",
            field_place: place!(11, 47),
            value: 134,
        },
    },
    Entry {
        place: place!(11, 43),
        form: Form::Sequence(&[129, 135]),
    },
    Entry {
        place: place!(12, 15),
        form: Form::PatternName(b"x"),
    },
    Entry {
        place: place!(12, 17),
        form: Form::PatternName(b"q"),
    },
    Entry {
        place: place!(12, 21),
        form: Form::Variable(b"queue_push"),
    },
    Entry {
        place: place!(12, 32),
        form: Form::Variable(b"x"),
    },
    Entry {
        place: place!(12, 34),
        form: Form::Variable(b"q"),
    },
    Entry {
        place: place!(12, 21),
        form: Form::Apply(139, &[140, 141]),
    },
    Entry {
        place: place!(13, 20),
        form: Form::PatternName(b"q"),
    },
    Entry {
        place: place!(13, 24),
        form: Form::Variable(b"q"),
    },
    Entry {
        place: place!(13, 24),
        form: Form::Field {
            record: 144,
            field: b"size",
            field_place: place!(13, 26),
        },
    },
    Entry {
        place: place!(13, 33),
        form: Form::Integer(b"0"),
    },
    Entry {
        place: place!(13, 31),
        form: Form::Binary(BinaryOperator::Equal, 145, 146),
    },
    Entry {
        place: place!(14, 18),
        form: Form::PatternName(b"q"),
    },
    Entry {
        place: place!(14, 22),
        form: Form::Variable(b"q"),
    },
    Entry {
        place: place!(14, 22),
        form: Form::Field {
            record: 149,
            field: b"size",
            field_place: place!(14, 24),
        },
    },
    Entry {
        place: place!(15, 19),
        form: Form::PatternName(b"q"),
    },
    Entry {
        place: place!(15, 29),
        form: Form::Variable(b"q"),
    },
    Entry {
        place: place!(15, 29),
        form: Form::Field {
            record: 152,
            field: b"front",
            field_place: place!(15, 31),
        },
    },
    Entry {
        place: place!(16, 5),
        form: Form::PatternName(b"x"),
    },
    Entry {
        place: place!(16, 10),
        form: Form::PatternName(b"r"),
    },
    Entry {
        place: place!(16, 7),
        form: Form::PatternCons(154, 155),
    },
    Entry {
        place: place!(16, 15),
        form: Form::Variable(b"q"),
    },
    Entry {
        place: place!(16, 26),
        form: Form::Variable(b"r"),
    },
    Entry {
        place: place!(16, 23),
        form: Form::SetField {
            record: 157,
            field: b"front",
            field_place: place!(16, 17),
            value: 158,
        },
    },
    Entry {
        place: place!(16, 29),
        form: Form::Variable(b"q"),
    },
    Entry {
        place: place!(16, 39),
        form: Form::Variable(b"q"),
    },
    Entry {
        place: place!(16, 39),
        form: Form::Field {
            record: 161,
            field: b"size",
            field_place: place!(16, 41),
        },
    },
    Entry {
        place: place!(16, 48),
        form: Form::Integer(b"1"),
    },
    Entry {
        place: place!(16, 46),
        form: Form::Binary(BinaryOperator::Subtract, 162, 163),
    },
    Entry {
        place: place!(16, 36),
        form: Form::SetField {
            record: 160,
            field: b"size",
            field_place: place!(16, 31),
            value: 164,
        },
    },
    Entry {
        place: place!(16, 51),
        form: Form::Variable(b"x"),
    },
    Entry {
        place: place!(16, 27),
        form: Form::Sequence(&[159, 165, 166]),
    },
    Entry {
        place: place!(17, 5),
        form: Form::PatternNil,
    },
    Entry {
        place: place!(17, 14),
        form: Form::Variable(b"q"),
    },
    Entry {
        place: place!(17, 14),
        form: Form::Field {
            record: 169,
            field: b"size",
            field_place: place!(17, 16),
        },
    },
    Entry {
        place: place!(17, 23),
        form: Form::Integer(b"0"),
    },
    Entry {
        place: place!(17, 21),
        form: Form::Binary(BinaryOperator::Equal, 170, 171),
    },
    Entry {
        place: place!(17, 30),
        form: Form::Variable(b"raise"),
    },
    Entry {
        place: place!(17, 36),
        form: Form::ModuleConstructor {
            module: b"Queue",
            name: b"Empty",
            name_place: place!(17, 42),
        },
    },
    Entry {
        place: place!(17, 30),
        form: Form::Apply(173, &[174]),
    },
    Entry {
        place: place!(18, 16),
        form: Form::Variable(b"q"),
    },
    Entry {
        place: place!(18, 27),
        form: Form::Variable(b"list_rev"),
    },
    Entry {
        place: place!(18, 36),
        form: Form::Variable(b"q"),
    },
    Entry {
        place: place!(18, 36),
        form: Form::Field {
            record: 178,
            field: b"back",
            field_place: place!(18, 38),
        },
    },
    Entry {
        place: place!(18, 27),
        form: Form::Apply(177, &[179]),
    },
    Entry {
        place: place!(18, 24),
        form: Form::SetField {
            record: 176,
            field: b"front",
            field_place: place!(18, 18),
            value: 180,
        },
    },
    Entry {
        place: place!(18, 44),
        form: Form::Variable(b"q"),
    },
    Entry {
        place: place!(18, 54),
        form: Form::Nil,
    },
    Entry {
        place: place!(18, 51),
        form: Form::SetField {
            record: 182,
            field: b"back",
            field_place: place!(18, 46),
            value: 183,
        },
    },
    Entry {
        place: place!(18, 58),
        form: Form::Variable(b"queue_pop"),
    },
    Entry {
        place: place!(18, 68),
        form: Form::Variable(b"q"),
    },
    Entry {
        place: place!(18, 58),
        form: Form::Apply(185, &[186]),
    },
    Entry {
        place: place!(18, 42),
        form: Form::Sequence(&[181, 184, 187]),
    },
    Entry {
        place: place!(18, 10),
        form: Form::BeginEnd(188),
    },
    Entry {
        place: place!(17, 11),
        form: Form::If(172, 175, 189),
    },
    Entry {
        place: place!(15, 23),
        form: Form::Match(153, &[(156, 167), (168, 190)]),
    },
    Entry {
        place: place!(19, 16),
        form: Form::PatternName(b"q"),
    },
    Entry {
        place: place!(19, 20),
        form: Form::Variable(b"queue_pop"),
    },
    Entry {
        place: place!(19, 30),
        form: Form::Variable(b"q"),
    },
    Entry {
        place: place!(19, 20),
        form: Form::Apply(193, &[194]),
    },
    Entry {
        place: place!(20, 27),
        form: Form::PatternName(b"i"),
    },
    Entry {
        place: place!(20, 29),
        form: Form::PatternName(b"n"),
    },
    Entry {
        place: place!(20, 36),
        form: Form::Variable(b"n"),
    },
    Entry {
        place: place!(20, 40),
        form: Form::Integer(b"0"),
    },
    Entry {
        place: place!(20, 38),
        form: Form::Binary(BinaryOperator::Equal, 198, 199),
    },
    Entry {
        place: place!(20, 47),
        form: Form::Constructor(b"None"),
    },
    Entry {
        place: place!(21, 14),
        form: Form::ModuleVariable {
            module: b"Fiberq",
            name: b"take_from",
            name_place: place!(21, 21),
        },
    },
    Entry {
        place: place!(21, 32),
        form: Form::Variable(b"i"),
    },
    Entry {
        place: place!(21, 38),
        form: Form::ModuleVariable {
            module: b"Fiberq",
            name: b"slots",
            name_place: place!(21, 45),
        },
    },
    Entry {
        place: place!(21, 51),
        form: Form::Unit,
    },
    Entry {
        place: place!(21, 38),
        form: Form::Apply(204, &[205]),
    },
    Entry {
        place: place!(21, 34),
        form: Form::Binary(BinaryOperator::Modulo, 203, 206),
    },
    Entry {
        place: place!(21, 31),
        form: Form::Bracket(207),
    },
    Entry {
        place: place!(21, 14),
        form: Form::Apply(202, &[208]),
    },
    Entry {
        place: place!(22, 10),
        form: Form::PatternName(b"k"),
    },
    Entry {
        place: place!(22, 5),
        form: Form::PatternConstruct(b"Some", 210),
    },
    Entry {
        place: place!(22, 20),
        form: Form::Variable(b"k"),
    },
    Entry {
        place: place!(22, 15),
        form: Form::Construct(b"Some", 212),
    },
    Entry {
        place: place!(23, 5),
        form: Form::PatternConstructor(b"None"),
    },
    Entry {
        place: place!(23, 13),
        form: Form::Variable(b"fiberq_steal_from"),
    },
    Entry {
        place: place!(23, 32),
        form: Form::Variable(b"i"),
    },
    Entry {
        place: place!(23, 36),
        form: Form::Integer(b"1"),
    },
    Entry {
        place: place!(23, 34),
        form: Form::Binary(BinaryOperator::Add, 216, 217),
    },
    Entry {
        place: place!(23, 31),
        form: Form::Bracket(218),
    },
    Entry {
        place: place!(23, 40),
        form: Form::Variable(b"n"),
    },
    Entry {
        place: place!(23, 44),
        form: Form::Integer(b"1"),
    },
    Entry {
        place: place!(23, 42),
        form: Form::Binary(BinaryOperator::Subtract, 220, 221),
    },
    Entry {
        place: place!(23, 39),
        form: Form::Bracket(222),
    },
    Entry {
        place: place!(23, 13),
        form: Form::Apply(215, &[219, 223]),
    },
    Entry {
        place: place!(21, 8),
        form: Form::Match(209, &[(211, 213), (214, 224)]),
    },
    Entry {
        place: place!(20, 33),
        form: Form::If(200, 201, 225),
    },
    Entry {
        place: place!(24, 18),
        form: Form::PatternUnit,
    },
    Entry {
        place: place!(24, 23),
        form: Form::Variable(b"fiberq_steal_from"),
    },
    Entry {
        place: place!(24, 42),
        form: Form::ModuleVariable {
            module: b"Fiberq",
            name: b"self",
            name_place: place!(24, 49),
        },
    },
    Entry {
        place: place!(24, 54),
        form: Form::Unit,
    },
    Entry {
        place: place!(24, 42),
        form: Form::Apply(229, &[230]),
    },
    Entry {
        place: place!(24, 41),
        form: Form::Bracket(231),
    },
    Entry {
        place: place!(24, 59),
        form: Form::ModuleVariable {
            module: b"Fiberq",
            name: b"slots",
            name_place: place!(24, 66),
        },
    },
    Entry {
        place: place!(24, 72),
        form: Form::Unit,
    },
    Entry {
        place: place!(24, 59),
        form: Form::Apply(233, &[234]),
    },
    Entry {
        place: place!(24, 58),
        form: Form::Bracket(235),
    },
    Entry {
        place: place!(24, 23),
        form: Form::Apply(228, &[232, 236]),
    },
];

/// The functions on lists, before the type of queues.
static LISTS: [Definition; 8] = [
    Definition {
        place: place!(1, 1),
        is_recursive: true,
        name: b"list_length_from",
        name_place: place!(1, 9),
        parameters: &[0, 1],
        body: 15,
    },
    Definition {
        place: place!(2, 1),
        is_recursive: false,
        name: b"list_length",
        name_place: place!(2, 5),
        parameters: &[16],
        body: 20,
    },
    Definition {
        place: place!(3, 1),
        is_recursive: true,
        name: b"list_rev_onto",
        name_place: place!(3, 9),
        parameters: &[21, 22],
        body: 36,
    },
    Definition {
        place: place!(4, 1),
        is_recursive: false,
        name: b"list_rev",
        name_place: place!(4, 5),
        parameters: &[37],
        body: 41,
    },
    Definition {
        place: place!(5, 1),
        is_recursive: true,
        name: b"list_append",
        name_place: place!(5, 9),
        parameters: &[42, 43],
        body: 56,
    },
    Definition {
        place: place!(6, 1),
        is_recursive: true,
        name: b"list_map",
        name_place: place!(6, 9),
        parameters: &[57, 58],
        body: 75,
    },
    Definition {
        place: place!(7, 1),
        is_recursive: true,
        name: b"list_iter",
        name_place: place!(7, 9),
        parameters: &[76, 77],
        body: 92,
    },
    Definition {
        place: place!(8, 1),
        is_recursive: true,
        name: b"list_fold_left",
        name_place: place!(8, 9),
        parameters: &[93, 94, 95],
        body: 111,
    },
];

/// The functions on queues, behind their type.
static QUEUES: [Definition; 7] = [
    Definition {
        place: place!(10, 1),
        is_recursive: false,
        name: b"queue_create",
        name_place: place!(10, 5),
        parameters: &[117],
        body: 121,
    },
    Definition {
        place: place!(11, 1),
        is_recursive: false,
        name: b"queue_push",
        name_place: place!(11, 5),
        parameters: &[122, 123],
        body: 136,
    },
    Definition {
        place: place!(12, 1),
        is_recursive: false,
        name: b"queue_add",
        name_place: place!(12, 5),
        parameters: &[137, 138],
        body: 142,
    },
    Definition {
        place: place!(13, 1),
        is_recursive: false,
        name: b"queue_is_empty",
        name_place: place!(13, 5),
        parameters: &[143],
        body: 147,
    },
    Definition {
        place: place!(14, 1),
        is_recursive: false,
        name: b"queue_length",
        name_place: place!(14, 5),
        parameters: &[148],
        body: 150,
    },
    Definition {
        place: place!(15, 1),
        is_recursive: true,
        name: b"queue_pop",
        name_place: place!(15, 9),
        parameters: &[151],
        body: 191,
    },
    Definition {
        place: place!(19, 1),
        is_recursive: false,
        name: b"queue_take",
        name_place: place!(19, 5),
        parameters: &[192],
        body: 195,
    },
];

/// The functions that take from the queues of suspended fibers.
static FIBER_QUEUES: [Definition; 2] = [
    Definition {
        place: place!(20, 1),
        is_recursive: true,
        name: b"fiberq_steal_from",
        name_place: place!(20, 9),
        parameters: &[196, 197],
        body: 226,
    },
    Definition {
        place: place!(24, 1),
        is_recursive: false,
        name: b"fiberq_steal",
        name_place: place!(24, 5),
        parameters: &[227],
        body: 237,
    },
];

static QUEUE_FIELDS: [QueueField; 3] = [
    QueueField {
        name: b"front",
        place: place!(9, 29),
        annotation: 113,
    },
    QueueField {
        name: b"back",
        place: place!(9, 54),
        annotation: 115,
    },
    QueueField {
        name: b"size",
        place: place!(9, 78),
        annotation: 116,
    },
];

const QUEUE_ITEM_PLACE: Place = place!(9, 1);

const QUEUE_NAME_PLACE: Place = place!(9, 9);

const QUEUE_PARAMETER_PLACE: Place = place!(9, 6);

fn name(alloc: Global, place: Place, text: &[u8]) -> Result<Name, AllocError> {
    Ok(Name {
        place,
        text: Text::new(alloc, text)?,
    })
}

// A name without path.
fn short_name(alloc: Global, place: Place, text: &[u8]) -> Result<LongName, AllocError> {
    Ok(LongName {
        place,
        path: Sequence::empty(alloc),
        last: name(alloc, place, text)?,
    })
}

fn numbers(alloc: Global, parts: &[u32]) -> Result<Sequence<u32>, AllocError> {
    Ok(Sequence::from_vec(Vec::from_slice(alloc, parts)?))
}

fn type_or_pattern(alloc: Global, place: Place, form: Form) -> Result<Node, AllocError> {
    Ok(match form {
        Form::TypeVariable(text) => Node::TypeVariable {
            place,
            name: Text::new(alloc, text)?,
        },
        Form::TypeName(text) => Node::TypeName {
            name: short_name(alloc, place, text)?,
        },
        Form::TypeApply(argument, text) => Node::TypeApply {
            arguments: numbers(alloc, &[argument])?,
            constructor: short_name(alloc, place, text)?,
        },
        Form::PatternUnit => Node::PatternUnit { place },
        Form::PatternNil => Node::PatternList {
            place,
            parts: Sequence::empty(alloc),
        },
        Form::PatternName(text) => Node::PatternName {
            place,
            name: Text::new(alloc, text)?,
        },
        Form::PatternCons(head, tail) => Node::PatternCons { place, head, tail },
        Form::PatternConstruct(text, argument) => Node::PatternConstruct {
            constructor: short_name(alloc, place, text)?,
            argument,
        },
        Form::PatternConstructor(text) => Node::PatternConstructor {
            name: short_name(alloc, place, text)?,
        },
        _ => Node::PatternAny { place },
    })
}

fn plain(alloc: Global, place: Place, form: Form) -> Result<Node, AllocError> {
    Ok(match form {
        Form::Variable(text) => Node::Variable {
            name: short_name(alloc, place, text)?,
        },
        Form::ModuleVariable {
            module,
            name: last,
            name_place,
        } => Node::Variable {
            name: qualified(alloc, place, module, name(alloc, name_place, last)?)?,
        },
        Form::Constructor(text) => Node::Constructor {
            name: short_name(alloc, place, text)?,
        },
        Form::ModuleConstructor {
            module,
            name: last,
            name_place,
        } => Node::Constructor {
            name: qualified(alloc, place, module, name(alloc, name_place, last)?)?,
        },
        Form::Construct(text, argument) => Node::Construct {
            constructor: short_name(alloc, place, text)?,
            argument,
        },
        Form::Integer(text) => Node::Constant {
            place,
            literal: Literal {
                kind: LiteralKind::Integer,
                text: Text::new(alloc, text)?,
            },
        },
        Form::Unit => Node::Unit { place },
        Form::Nil => Node::List {
            place,
            parts: Sequence::empty(alloc),
        },
        Form::Bracket(inner) => Node::Bracket { place, inner },
        Form::BeginEnd(inner) => Node::BeginEnd { place, inner },
        Form::Binary(operator, left, right) => Node::Binary {
            place,
            operator,
            left,
            right,
        },
        Form::If(condition, consequence, alternative) => Node::If {
            place,
            condition,
            consequence,
            alternative: Some(alternative),
        },
        other => return type_or_pattern(alloc, place, other),
    })
}

fn qualified(
    alloc: Global,
    place: Place,
    module: &[u8],
    last: Name,
) -> Result<LongName, AllocError> {
    let mut path = Sequence::empty(alloc);
    path.push(Text::new(alloc, module)?)?;
    Ok(LongName { place, path, last })
}

fn record(alloc: Global, place: Place, fields: &[Field]) -> Result<Node, AllocError> {
    let mut made = Sequence::empty(alloc);
    for field in fields {
        made.push(NamedPart {
            name: name(alloc, field.place, field.name)?,
            part: field.part,
        })?;
    }
    Ok(Node::Record {
        place,
        fields: made,
    })
}

fn clauses(alloc: Global, clauses: &[(u32, u32)]) -> Result<Sequence<Clause>, AllocError> {
    let mut made = Sequence::empty(alloc);
    for (pattern, body) in clauses {
        made.push(Clause::Value {
            pattern: *pattern,
            guard: None,
            body: *body,
        })?;
    }
    Ok(made)
}

// One binding of a name.
fn binding(
    alloc: Global,
    name: Name,
    parameters: &[u32],
    body: u32,
) -> Result<Sequence<Binding>, AllocError> {
    let mut made = Sequence::empty(alloc);
    made.push(Binding::Named {
        name,
        parameters: numbers(alloc, parameters)?,
        annotation: None,
        body,
    })?;
    Ok(made)
}

fn node(alloc: Global, place: Place, form: Form) -> Result<Node, AllocError> {
    Ok(match form {
        Form::Apply(function, arguments) => Node::Apply {
            function,
            arguments: numbers(alloc, arguments)?,
        },
        Form::Sequence(parts) => Node::Sequence {
            place,
            parts: numbers(alloc, parts)?,
        },
        Form::Record(fields) => record(alloc, place, fields)?,
        Form::Field {
            record,
            field,
            field_place,
        } => Node::Field {
            record,
            field: name(alloc, field_place, field)?,
        },
        Form::SetField {
            record,
            field,
            field_place,
            value,
        } => Node::SetField {
            place,
            record,
            field: name(alloc, field_place, field)?,
            value,
        },
        Form::Let {
            name: text,
            name_place,
            value,
            body,
        } => Node::Let {
            place,
            is_recursive: false,
            bindings: binding(alloc, name(alloc, name_place, text)?, &[], value)?,
            body,
        },
        Form::Match(subject, cases) => Node::Match {
            place,
            subject,
            clauses: clauses(alloc, cases)?,
        },
        other => return plain(alloc, place, other),
    })
}

fn nodes(alloc: Global) -> Result<Nodes, AllocError> {
    let mut nodes = Nodes::new(alloc);
    for entry in NODES.iter() {
        nodes.push(node(alloc, entry.place, entry.form)?)?;
    }
    Ok(nodes)
}

fn define(
    alloc: Global,
    items: &mut Sequence<Item>,
    definitions: &[Definition],
) -> Result<(), AllocError> {
    for definition in definitions {
        let name = name(alloc, definition.name_place, definition.name)?;
        items.push(Item::Let {
            place: definition.place,
            is_recursive: definition.is_recursive,
            bindings: binding(alloc, name, definition.parameters, definition.body)?,
        })?;
    }
    Ok(())
}

fn queue_fields(alloc: Global) -> Result<Sequence<FieldDefinition>, AllocError> {
    let mut fields = Sequence::empty(alloc);
    for field in QUEUE_FIELDS {
        fields.push(FieldDefinition {
            is_mutable: true,
            name: name(alloc, field.place, field.name)?,
            annotation: field.annotation,
        })?;
    }
    Ok(fields)
}

fn queue_type(alloc: Global) -> Result<Item, AllocError> {
    let mut parameters = Sequence::empty(alloc);
    parameters.push(name(alloc, QUEUE_PARAMETER_PLACE, b"'a")?)?;
    let mut definitions = Sequence::empty(alloc);
    definitions.push(TypeDefinition {
        parameters,
        name: name(alloc, QUEUE_NAME_PLACE, b"queue_t")?,
        body: TypeBody::Record(queue_fields(alloc)?),
    })?;
    Ok(Item::Types {
        place: QUEUE_ITEM_PLACE,
        definitions,
    })
}

/// The program that the prelude is.
pub fn prelude_program(alloc: Global) -> Result<Prog, AllocError> {
    let mut items = Sequence::empty(alloc);
    define(alloc, &mut items, &LISTS)?;
    items.push(queue_type(alloc)?)?;
    define(alloc, &mut items, &QUEUES)?;
    define(alloc, &mut items, &FIBER_QUEUES)?;
    Ok(Prog {
        nodes: nodes(alloc)?,
        items,
    })
}
