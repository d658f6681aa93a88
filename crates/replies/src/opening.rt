//! How a plan opens.
ghost use Rattle.std.specs.Prelude.{◌≡◌};
ghost use Rattle.replies.specs.Openings.{opening_of};

use pacing::effort::Effort;
use pacing::fault::EffortFault;
use plan::Line;

// The store that a plan asks for.
#[derive(Clone, Copy)]
pub struct Opening {
    pub cells: u32,
    pub effort: Effort,
    pub floor: u32,
}

// The store that a plan's first line asks for, or its refusal; none where there is no line, or no store line first, which no
// reading gives.
pub fn open_plan(lines: &[Line]) -> Result<Option<Opening>, EffortFault>
    ensures { result ≡ opening_of lines.now }
{
    let Some(
        Line::Store {
            cells,
            k1,
            k2,
            floor,
        },
    ) = lines.first().copied()
    else {
        return Ok(None);
    };
    let effort = Effort::new(k1, k2)?;
    Ok(Some(Opening {
        cells,
        effort,
        floor,
    }))
}
