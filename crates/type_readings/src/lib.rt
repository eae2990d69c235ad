//! What the graph of inferred types stands for, in types as trees.
//!
//! A reading of a graph gives each of its types a tree: any for a variable, the same for linked types,
//! the type constructor with the trees of its arguments for others.
//!
//! Promised: unification gives exactly the readings that there are. What reads the graph behind pairs
//! that were made equal reads the graph before and makes each pair equal ([`unify_equates`]), and none
//! of those is lost ([`unify_loses_none`]); where pairs can't be made equal, none makes them so
//! ([`unify_refuses_rightly`]). The graph must be well formed, as it is when it is made
//! ([`making_keeps_form`], [`making_is_read`]), where types become outer ([`outer_is_read`]) and behind
//! unification ([`unify_keeps_form`]). Then each type has the tree of its root ([`root_is_read`]). For
//! two types and all steps that there may be, it is decided ([`unify_decides`]). A reading that leaves
//! variables open is a most general one ([`open_is_most_general`]). Counting the sizes of types decides
//! whether there is one ([`counting_decides`]).
//! A copy changes nothing of the types that were there ([`copy_keeps_types`]).
//! With the outer types as they are, the copy of a type may have exactly the trees that the type may
//! have ([`copy_stands_for_original`]), and the graph behind it is well formed ([`copy_keeps_form`]); both
//! where the arguments of outer types are outer. So they are in graphs as they are made
//! ([`making_keeps_copyable`]), behind a copy, where types become outer, and at the end of an item in
//! which all that isn't outer in an outer type was given to it ([`outer_is_copyable`]). In the midst of
//! an item they need not be outer, but what isn't was given by the item, which may end there for a copy:
//! so it is in graphs as they are made ([`making_keeps_giving`]), where types become outer
//! ([`outer_keeps_giving`]) and behind types that were made equal; an outer type of which something is
//! known stays outer in unification ([`unify_keeps_giving`]).
//! For an operation only new types are made ([`signatures_are_made`]), and in a well-formed graph with the
//! built-in types, where there is room, those of its parts and its result may have exactly the trees of
//! the instances of its row in the table of the typing rules, with all types before as they are
//! ([`signatures_are_rules`]).
//! Where types are made or copied, where types become outer and at the end of an item, an outer type of
//! which something is known stays so ([`fixed_types_stay`]). So does what is outer or given to earlier
//! items, also where two types were made equal, and at the end of an item it is outer
//! ([`outer_types_stay`]). Types and arguments aren't more or fewer where types become outer and at the
//! end of an item, and not fewer behind a copy ([`numbers_are_kept`]).
//!
//! The definitions stand in `specs/`: `Readings`, `WellFormed`, and the laws in `Laws`, `SignatureRules` and
//! `OuterLaws`.
//!
//! Stands on: `type_terms`, for the trees and the rows of operations, and `type_graph`, for the graph and
//! for unification.
#![tactic(auto)]

ghost use Rattle.type_readings.specs.Laws.{BuiltInIsWellFormed, VariableKeepsForm, VariableAsksNothing, ApplicationKeepsForm, ApplicationIsRead, RootIsRoot, RootIsEqual, OuterKeepsForm, OuterAsksNothing, EndKeepsForm, EndAsksNothing, CopyKeepsTypes, CopyKeepsReadings, BuiltInIsCopyable, VariableKeepsCopyable, ApplicationKeepsCopyable, OuterKeepsCopyable, EndIsCopyable, BuiltInIsGiving, VariableKeepsGiving, ApplicationKeepsGiving, CopyableIsGiving, OuterKeepsGiving, CopyIsNumber, CopyKeepsForm, CopyKeepsCopyable, CopyReads, CopyIsFree, KeepsForm, KeepsNumbers, UnifyKeepsGiving, FixedStay, Equates, LosesNone, RefusesRightly, DecidesPair, OpenIsMostGeneral, CountedIsRead, UncountedIsUnread};
ghost use Rattle.type_readings.specs.SignatureRules.{MadeIsLonger, MadeKeepsTypes, MadeKeepsForm, MadeKeepsReadings, SignatureIsMade, SignatureHasNumbers, SignatureIsSound, SignatureIsComplete};
ghost use Rattle.type_readings.specs.OuterLaws.{VariableKeepsFixed, ApplicationKeepsFixed, ApplicationIsFixed, MadeKeepsFixed, OuterKeepsFixed, EndKeepsFixed, CopyKeepsFixed, VariableKeepsOuter, ApplicationKeepsOuter, MadeKeepsOuter, OuterKeepsOuter, CopyKeepsOuter, UnifyKeepsOuter, OuterIsOuterStill, TheyBecomeOuter, EndMakesOuter, OuterKeepsNumbers, EndKeepsNumbers, CopyKeepsNumbers};

/// The law that graphs are well formed as they are made: the built-in types, and a well-formed graph
/// with a new variable or a type constructor with its arguments.
pub fn making_keeps_form()
    ensures built_in { BuiltInIsWellFormed }
    ensures variable { VariableKeepsForm }
    ensures applied { ApplicationKeepsForm }
{}

/// The law of what reads a graph with a new type: a variable asks nothing, and a type constructor its
/// own tree.
pub fn making_is_read()
    ensures variable { VariableAsksNothing }
    ensures applied { ApplicationIsRead }
{}

/// The law that the links from a type of a well-formed graph end at its root, from which none leads on,
/// and that what reads the graph gives both the same tree.
pub fn root_is_read()
    ensures root { RootIsRoot }
    ensures equal { RootIsEqual }
{}

/// The law that types become outer in a well-formed graph, and that the same reads it then; so it is
/// at the end of an item.
pub fn outer_is_read()
    ensures outer_form { OuterKeepsForm }
    ensures outer_reads { OuterAsksNothing }
    ensures end_form { EndKeepsForm }
    ensures end_reads { EndAsksNothing }
{}

/// The law that a copy changes nothing that is known of the types before it, and that what reads the
/// graph behind it reads the graph before.
pub fn copy_keeps_types()
    ensures types { CopyKeepsTypes }
    ensures readings { CopyKeepsReadings }
{}

/// The law that copies can be told from the types of a graph, as they are made: the built-in types, and
/// a new variable or a type constructor, of which the arguments are outer where it is.
pub fn making_keeps_copyable()
    ensures built_in { BuiltInIsCopyable }
    ensures variable { VariableKeepsCopyable }
    ensures applied { ApplicationKeepsCopyable }
{}

/// The law that copies can be told where types and their parts become outer, and at the end of an item
/// in which only what it gave isn't outer in outer types.
pub fn outer_is_copyable()
    ensures made { OuterKeepsCopyable }
    ensures ended { EndIsCopyable }
{}

/// The law that all that isn't outer in outer types is what the item at hand gave, in graphs as they are
/// made: the built-in types, a new variable or a type constructor, of which the arguments are outer where
/// it is, and a graph of which a copy can be made and at which nothing was given.
pub fn making_keeps_giving()
    ensures built_in { BuiltInIsGiving }
    ensures variable { VariableKeepsGiving }
    ensures applied { ApplicationKeepsGiving }
    ensures copied { CopyableIsGiving }
{}

/// The law that it stays so where types and their parts become outer.
pub fn outer_keeps_giving()
    ensures made { OuterKeepsGiving }
{}

/// The law that the copy of a type is a type of a well-formed graph, where there is room for it, and that
/// further copies can be made there.
pub fn copy_keeps_form()
    ensures number { CopyIsNumber }
    ensures form { CopyKeepsForm }
    ensures copyable { CopyKeepsCopyable }
{}

/// The law of the copy of a type: each tree that it has, where the graph behind it is read, the type may
/// have too, and each tree that the type may have the copy may have, while all types before it stay as
/// they are. Outer types are the same for both.
pub fn copy_stands_for_original()
    ensures reads { CopyReads }
    ensures free { CopyIsFree }
{}

/// The law that a graph stays well formed in unification, and has as many types and the same arguments.
pub fn unify_keeps_form()
    ensures form { KeepsForm }
    ensures numbers { KeepsNumbers }
{}

/// The law that behind pairs that were made equal all that isn't outer in outer types is still what the
/// item at hand gave, and that an outer type of which something is known stays so in unification.
pub fn unify_keeps_giving()
    ensures giving { UnifyKeepsGiving }
    ensures fixed { FixedStay }
{}

/// The law that what reads the graph behind unification reads the graph before it and makes each pair
/// equal.
pub fn unify_equates()
    ensures { Equates }
{}

/// The law that what reads a graph and makes each pair equal reads the graph behind unification.
pub fn unify_loses_none()
    ensures { LosesNone }
{}

/// The law that nothing which reads a graph makes pairs equal that unification refuses, where there
/// were enough steps.
pub fn unify_refuses_rightly()
    ensures { RefusesRightly }
{}

/// The law of two types: with all the steps that there may be, unification decides whether something
/// that reads the graph makes them equal, and gives the graph that exactly this reads.
pub fn unify_decides()
    ensures { DecidesPair }
{}

/// The law that each reading of a graph is an instance of one that leaves variables open.
pub fn open_is_most_general()
    ensures { OpenIsMostGeneral }
{}

/// The law of the sizes of types: where all types of a graph are counted, a most general reading is
/// there, and the sizes are those of its trees; where one is a part of itself, nothing reads the graph.
pub fn counting_decides()
    ensures counted { CountedIsRead }
    ensures uncounted { UncountedIsUnread }
{}

/// The law of what is made for an operation: new variables and type constructors that aren't outer, and
/// its parts and its result have types of the graph behind. A graph with such further types is longer, with
/// those that were there as they are, well formed where there is room for it, and what reads it reads the
/// graph before.
pub fn signatures_are_made()
    ensures made { SignatureIsMade }
    ensures numbers { SignatureHasNumbers }
    ensures longer { MadeIsLonger }
    ensures types { MadeKeepsTypes }
    ensures form { MadeKeepsForm }
    ensures reads { MadeKeepsReadings }
{}

/// The law that the types made for an operation are those of its row in the typing rules: what reads the
/// graph behind gives its parts and its result an instance of the row, and for each instance something
/// reads the graph so, with all types before as they are.
pub fn signatures_are_rules()
    ensures sound { SignatureIsSound }
    ensures complete { SignatureIsComplete }
{}

/// The law that an outer type of which something is known stays so where types are made or copied, where
/// types become outer, and at the end of an item; a new outer type constructor is such a type.
pub fn fixed_types_stay()
    ensures variable { VariableKeepsFixed }
    ensures applied { ApplicationKeepsFixed }
    ensures itself { ApplicationIsFixed }
    ensures made { MadeKeepsFixed }
    ensures outer { OuterKeepsFixed }
    ensures ended { EndKeepsFixed }
    ensures copied { CopyKeepsFixed }
{}

/// The law that what is outer, or given to earlier items, stays so where types are made or copied, where
/// types become outer and where two types were made equal, and is outer at the end of an item. What is to
/// become outer is so then, and outer types stay outer.
pub fn outer_types_stay()
    ensures variable { VariableKeepsOuter }
    ensures applied { ApplicationKeepsOuter }
    ensures made { MadeKeepsOuter }
    ensures outer { OuterKeepsOuter }
    ensures copied { CopyKeepsOuter }
    ensures equated { UnifyKeepsOuter }
    ensures still { OuterIsOuterStill }
    ensures made_outer { TheyBecomeOuter }
    ensures ended { EndMakesOuter }
{}

/// The law that types and arguments aren't more or fewer where types become outer and at the end of an
/// item, behind which nothing is given, and not fewer behind a copy, which gives nothing.
pub fn numbers_are_kept()
    ensures outer { OuterKeepsNumbers }
    ensures ended { EndKeepsNumbers }
    ensures copied { CopyKeepsNumbers }
{}
