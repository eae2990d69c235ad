//! The conversion of applications.

use crate::converter::Converter;
use crate::tasks::Task;
use core_shapes::{application_of, form_of};
use effect_meaning::TermForm;
use low_terms::SlotForm;
use std::alloc::AllocError;

/// What is called by name with all its arguments.
#[derive(Clone, Copy)]
enum Callee {
    /// A loop, by its first parameter's slot.
    Loop(u32),
    /// A known function of so many parameters, by its name.
    Known { name: u32, parameters: u32 },
    Unknown,
}

impl<'a> Converter<'a> {
    fn callee(&self, head: u32) -> Result<Callee, AllocError> {
        let TermForm::Name(name) = form_of(self.core1, head)? else {
            return Ok(Callee::Unknown);
        };
        if let Some(target) = self.names.loops.get(*name) {
            return Ok(Callee::Loop(target));
        }
        match self.names.known.get(*name) {
            Some(known) => Ok(Callee::Known {
                name: *name,
                parameters: known.parameters,
            }),
            None => Ok(Callee::Unknown),
        }
    }

    /// Converts an application: where what is applied is known, by all its arguments at once, else by
    /// one argument after the other.
    pub fn application(&mut self, term: u32, depth: u32) -> Result<(), AllocError> {
        let application = application_of(self.core1, term)?;
        let callee = self.callee(application.head)?;
        let mut rest = term;
        let mut left = application.count;
        let mut at = depth;
        for _step in 0..u64::MAX {
            if let Some(task) = exact_call(callee, left, at) {
                self.push(task)?;
                return self.push_arguments(rest, at);
            }
            let TermForm::Apply { function, argument } = form_of(self.core1, rest)? else {
                return self.push_term(rest, at);
            };
            self.push(Task::Call { depth: at })?;
            self.push_term(*argument, at)?;
            rest = *function;
            left = left.saturating_sub(1);
            at = at.saturating_add(1);
        }
        Err(AllocError)
    }

    /// Converts the arguments of an application, the first one of the text first.
    pub fn push_arguments(&mut self, term: u32, depth: u32) -> Result<(), AllocError> {
        let mut rest = term;
        let mut at = depth;
        for _step in 0..u64::MAX {
            let TermForm::Apply { function, argument } = form_of(self.core1, rest)? else {
                return Ok(());
            };
            self.push_term(*argument, at)?;
            rest = *function;
            at = at.saturating_add(1);
        }
        Err(AllocError)
    }

    /// The node of an application to one argument.
    pub fn build_call(&mut self, depth: u32) -> Result<(), AllocError> {
        let parts = self.slots.take_list(2)?;
        self.slots.give_new(SlotForm::Call(parts), depth)
    }

    /// The node of a call of a known function.
    pub fn build_known(&mut self, name: u32, count: u32, depth: u32) -> Result<(), AllocError> {
        let parts = self.slots.take_list(count as usize)?;
        let Some(known) = self.names.known.get(name) else {
            return Err(AllocError);
        };
        let closure = if known.closure {
            Some(self.names.local(name)?)
        } else {
            None
        };
        let form = SlotForm::Known {
            function: known.function,
            closure,
            parts,
        };
        self.slots.give_new(form, depth)
    }

    /// The node of a loop's next round.
    pub fn build_again(&mut self, target: u32, count: u32, depth: u32) -> Result<(), AllocError> {
        let parts = self.slots.take_list(count as usize)?;
        self.slots
            .give_new(SlotForm::Again { target, parts }, depth)
    }
}

// The task of a call with exactly so many arguments, if it is one with all arguments.
fn exact_call(callee: Callee, count: u32, depth: u32) -> Option<Task> {
    match callee {
        Callee::Loop(target) => Some(Task::Again {
            target,
            count,
            depth,
        }),
        Callee::Known { name, parameters } if parameters == count => {
            Some(Task::Known { name, count, depth })
        }
        _ => None,
    }
}
