//! The call that a line asks for.
ghost use Rattle.std.specs.Prelude.{◌≡◌};
ghost use Rattle.replies.specs.Requests.{call_of};

use super::fault::LineFault;
use atoms::Zone;
use listcalls::Call;
use plan::Line;

/// The call of a line, or why it comes to none; a store line asks for no call.
pub fn call_of(line: Line) -> Result<Option<Call<Zone>>, LineFault>
    ensures { result ≡ call_of line }
{
    let call = match line {
        Line::Store { .. } => return Ok(None),
        Line::Load {
            register,
            offset,
            length,
        } => Call::Load(register, Zone::new(offset, length)?),
        Line::Clear { i } => Call::Clear(i),
        Line::Copy { i, a } => Call::Copy(i, a),
        Line::Cons { i, a, b } => Call::Cons(i, a, b),
        Line::Car { i, a } => Call::Car(i, a),
        Line::Cdr { i, a } => Call::Cdr(i, a),
        Line::Rplaca { a, b } => Call::Rplaca(a, b),
        Line::Rplacd { a, b } => Call::Rplacd(a, b),
        Line::Look { i } => Call::Look(i),
        Line::Same { i, j } => Call::Same(i, j),
    };
    Ok(Some(call))
}
