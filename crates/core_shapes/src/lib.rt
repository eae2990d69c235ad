//! Shapes of Core that its conversion looks for: functions with all their parameters, applications with
//! all their arguments, terms whose code calls nothing, and loops.
//!
//! Promised: each function is safe and returns; [`passed_limit`] tells of numbers above 255 alone. Which
//! terms are loops is tested.
//!
//! Stands on: `fx_base`, `effect_meaning`, `low_terms`, `indexmap`.
#![tactic(auto)]

mod flatness;
mod limits;
mod shapes;

pub use flatness::flat_terms;
pub use limits::{MOST, passed_limit};
pub use shapes::{
    Application, Level, Literal, MOST_PARAMETERS, application_of, form_of, is_trivial, is_truth,
    last_body, literal_of, literal_of_function, name_of, need_of, number_of, owner_of, place_of,
    plain, test_of, unfold,
};
