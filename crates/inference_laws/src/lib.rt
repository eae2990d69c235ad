//! The laws of the walk by which types are inferred.
//!
//! Promised: a state of the walk is whole ([`walk_is_whole`]): its graph of types is well formed, each
//! number in it is one of a type, and as long as the walk goes on a copy can be told of its types at the
//! end of the item. So it is at the begin, where a task is done and at the end of the walk, if there is
//! room for the types, as there is behind each verdict. So the verdict on a program tells of the trees
//! that the types of its walk stand for ([`verdict_is_of_readings`]). A written type means the tree that
//! it is read as ([`written_is_meant`]), whatever reads the types behind it, as long as the walk goes on:
//! each type variable stands for the tree of what is known of it. Uses of constructors and fields have the
//! types that their rules say ([`uses_are_ruled`]), whatever reads the types behind them, as long as the
//! walk goes on. So whatever reads the types behind the walk over an accepted program solves the equations
//! of the typing rules ([`accepted_is_solved`]).
//!
//! The definitions stand in `specs/`: `Whole`, `Meanings` and `Premises`, and the laws in `Laws`,
//! `VerdictLaws`, `WrittenLaws`, `RuleLaws` and `SoundLaws`. The proof of the last goes from `Runs` (what is
//! put on the stack of tasks is done before what lay there) by `Grounds` (what is known where a term
//! begins, and what is shown where it ends) to each form of pattern, term and item, and to `Sound`.
//!
//! Stands on: `ml_infer`, for the walk, and `type_readings`, for the laws of graphs of types.
#![tactic(auto)]

ghost use Rattle.inference_laws.specs.GraphLaws.{GraphLaws};
ghost use Rattle.inference_laws.specs.Laws.{TaskKeepsWhole, WalkIsWhole};
ghost use Rattle.inference_laws.specs.RuleLaws.{ConstructorIsRuled, EffectIsRuled, FieldIsRuled};
ghost use Rattle.inference_laws.specs.RuleLaws.{MutableIsRuled, RecordIsRuled, TaskKeepsMembers};
ghost use Rattle.inference_laws.specs.SoundLaws.{AcceptedIsSolved};
ghost use Rattle.inference_laws.specs.VerdictLaws.{WalkIsThere, AcceptedIsRead, RefusedIsUnread, LargeIsRead};
ghost use Rattle.inference_laws.specs.WrittenLaws.{DeclaredTypeIsMeant, ItemTypeIsMeant, WrittenLeads};

use type_readings::{
    copy_keeps_form, copy_keeps_types, copy_stands_for_original, counting_decides,
    fixed_types_stay, making_is_read, making_keeps_form, making_keeps_giving, numbers_are_kept,
    outer_is_copyable, outer_is_read, outer_keeps_giving, outer_types_stay, root_is_read,
    signatures_are_made, signatures_are_rules, unify_equates, unify_keeps_form, unify_keeps_giving,
};

/// The laws of graphs of types that the laws of the walk stand on, in one.
pub fn graphs_keep_laws()
    ensures { GraphLaws }
{
    making_keeps_form();
    making_is_read();
    root_is_read();
    making_keeps_giving();
    outer_is_read();
    outer_is_copyable();
    outer_keeps_giving();
    copy_keeps_types();
    copy_keeps_form();
    copy_stands_for_original();
    unify_keeps_form();
    unify_equates();
    unify_keeps_giving();
    fixed_types_stay();
    outer_types_stay();
    numbers_are_kept();
    signatures_are_made();
    signatures_are_rules();
}

/// The law that a state of the walk stays whole where a task is done, and that a walk is whole at its
/// end.
pub fn walk_is_whole()
    ensures task { TaskKeepsWhole }
    ensures walk { WalkIsWhole }
{
    graphs_keep_laws();
}

/// The law of what the verdict on a program says of the trees that the types of its walk stand for. There
/// is room for these types, and the walk is whole. Where the program is accepted, the walk went to its end,
/// whatever reads its types has each comparison at just the type of the answer, and a most general reading
/// is there, in which no definition has more than 4,096 nodes. Where it is refused for its types, the walk
/// ended with a fault, or nothing reads the types, or a comparison of the answer's place is at none of the
/// five types in a most general reading; where a type is too large, a definition has more nodes in one.
pub fn verdict_is_of_readings()
    ensures there { WalkIsThere }
    ensures accepted { AcceptedIsRead }
    ensures refused { RefusedIsUnread }
    ensures large { LargeIsRead }
{
    walk_is_whole();
    root_is_read();
    counting_decides();
}

/// The law that a written type of an item, or of a declaration, means the tree that it is read as, and
/// that a state leads to the one behind a written type: tasks, names and given types are the same, what is
/// known of type variables stays, and written types without variables still mean what they were read as.
pub fn written_is_meant()
    ensures item { ItemTypeIsMeant }
    ensures declared { DeclaredTypeIsMeant }
    ensures leads { WrittenLeads }
{
    graphs_keep_laws();
}

/// The law that a use of a constructor, what an effect gives, and a field have the types that their rules
/// say, whatever reads the types behind them, as long as the walk goes on; that it goes on behind an
/// assignment to a field only where the field is mutable, and behind a record expression only where each
/// field is named once; and that a task changes nothing in what is counted of fields and constructors.
/// Asked of the program: its rows stand, type variables in a row are parameters of its type, and each
/// effect is written as one of Effect.t.
pub fn uses_are_ruled()
    ensures constructor { ConstructorIsRuled }
    ensures effect { EffectIsRuled }
    ensures field { FieldIsRuled }
    ensures mutable { MutableIsRuled }
    ensures record_ { RecordIsRuled }
    ensures members { TaskKeepsMembers }
{
    graphs_keep_laws();
}

/// The law that the equations of an accepted program have a solution, by a reading of the types of its
/// walk, and that the type of each definition has at most 4,096 nodes in it. Asked of the program: its
/// arena and the scopes of its names are in order, type variables in a row are parameters of its type, each
/// effect is written as one of Effect.t, and there are at most 4,294,967,295 terms and as many fields.
pub fn accepted_is_solved()
    ensures { AcceptedIsSolved }
{
    graphs_keep_laws();
    verdict_is_of_readings();
}
