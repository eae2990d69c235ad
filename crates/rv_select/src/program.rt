//! Whole programs.

ghost use Rattle.std.specs.Prelude.{◌≡◌, IfErr};

use crate::labels::entry;
use crate::selector::Selector;
use fx_base::Refusal;
use low_terms::LowProgram;
use rt_layout::assembly;
use rt_layout::blocks::UNIT;
use rt_layout::labels::{ITEMS, ITEMS_END, ROOT_VALUE};
use rt_layout::registers::A0;
use rv_model::Line;
use std::alloc::{AllocError, Global};

impl Selector {
    // Where the items begin, and what follows the last one.
    fn items(&mut self, low: &LowProgram) -> Result<(), AllocError> {
        self.label(ITEMS)?;
        if let Some(first) = low.first_item {
            self.jump(entry(first)?)?;
        }
        self.put(&assembly![
            label ITEMS_END;
            li A0, UNIT;
            jump ROOT_VALUE;
        ])
    }
}

fn select_all(alloc: Global, low: &LowProgram) -> Result<Vec<Line>, AllocError> {
    let mut selector = Selector::new(alloc, low)?;
    selector.items(low)?;
    for number in low.order.iter() {
        selector.function(low, *number)?;
    }
    let Selector {
        lines,
        tasks: _,
        statics: _,
        function: _,
        slots: _,
    } = selector;
    Ok(lines)
}

/// The lines of a program: those of its functions, in their order, behind the beginning of its items.
pub fn select(alloc: Global, low: &LowProgram) -> Result<Vec<Line>, Refusal>
    ensures refused { IfErr result (λ refusal. refusal ≡ Refusal.Memory) }
{
    Ok(select_all(alloc, low)?)
}
