//! What each request does.

ghost use Rattle.std.specs.Prelude.{◌≡◌, ◌<◌, true, length, IfOk, IfErr, Some, None, slice_get};
ghost use Rattle.gb_bridge_payload.specs.Views.{gpio_ask_of};
ghost use Rattle.gb_formats.specs.GpioDevice.{AtLine, GpioLine, at_line, gpio_asked, if_active};
ghost use Rattle.gb_formats.specs.Results.{nonexistent, refuses};
ghost use Rattle.gb_gpio.specs.Views.{IsWithin, change_of, gpio_line_of, lines_of, step_of};

use crate::change::Change;
use crate::effect::Effect::{self, Changes, Tells};
use crate::line::Line;
use gb_bridge_payload::{GpioAsk, GpioReply, INVALID, NONEXISTENT, PROTOCOL_BAD};

/// The number of the last line.
const LAST: u8 = 7;

/// What a request does at these lines, or the result of its refusal.
pub fn decide(lines: &[Line], ask: GpioAsk) -> Result<Effect, u8>
    ensures step { gpio_asked (lines_of lines.now) (gpio_ask_of ask)
        ≡ step_of (lines_of lines.now) result }
    ensures within { IfOk result (λ effect. IsWithin effect (length lines.now)) }
{
    match ask {
        GpioAsk::LineCount => Ok(Tells(GpioReply::LineCount { last: LAST })),
        GpioAsk::Activate { which } => Ok(Changes(which, line_at(lines, which)?.activated())),
        GpioAsk::Deactivate { which } => Ok(Changes(which, line_at(lines, which)?.restarted())),
        GpioAsk::GetDirection { which } => {
            let direction = active_at(lines, which)?.direction();
            Ok(Tells(GpioReply::GetDirection { direction }))
        }
        GpioAsk::DirectionIn { which } => change_at(lines, which, Change::In),
        GpioAsk::DirectionOut { which, value } => change_at(lines, which, Change::Out(value)),
        GpioAsk::GetValue { which } => {
            let value = active_at(lines, which)?.seen();
            Ok(Tells(GpioReply::GetValue { value }))
        }
        GpioAsk::SetValue { which, value } => change_at(lines, which, Change::Value(value)),
        GpioAsk::SetDebounce {
            which,
            microseconds,
        } => change_at(lines, which, Change::Debounce(microseconds)),
        GpioAsk::IrqType { which, kind } => change_at(lines, which, Change::Irq(kind)),
        GpioAsk::IrqMask { which } => change_at(lines, which, Change::Mask(true)),
        GpioAsk::IrqUnmask { which } => change_at(lines, which, Change::Mask(false)),
        GpioAsk::IrqEvent { .. } => Err(PROTOCOL_BAD),
    }
}

/// What a change does at the line of this number, or the result of its refusal.
fn change_at(lines: &[Line], which: u8, change: Change) -> Result<Effect, u8>
    ensures step { at_line (lines_of lines.now) which (change_of change)
        ≡ step_of (lines_of lines.now) result }
    ensures within { IfOk result (λ effect. IsWithin effect (length lines.now)) }
{
    let found = active_at(lines, which)?;
    let line = found.changed(change)?;
    Ok(Changes(which, line))
}

/// The line of this number. NONEXISTENT above the last.
fn line_at(lines: &[Line], which: u8) -> Result<Line, u8>
    ensures ok { IfOk result
        (λ line. slice_get (lines_of lines.now) which ≡ Some (gpio_line_of line)) }
    ensures within { IfOk result (λ line. which < length lines.now) }
    ensures err { IfErr result
        (λ code. (slice_get (lines_of lines.now) which ≡ None) × (code ≡ nonexistent)) }
{
    lines.get(which as usize).copied().ok_or(NONEXISTENT)
}

/// The line of this number, which is active. NONEXISTENT above the last, INVALID where it isn't.
fn active_at(lines: &[Line], which: u8) -> Result<Line, u8>
    ensures ok { IfOk result (λ line. line.active ≡ true) }
    ensures line { IfOk result
        (λ line. slice_get (lines_of lines.now) which ≡ Some (gpio_line_of line)) }
    ensures within { IfOk result (λ line. which < length lines.now) }
    ensures err { IfErr result (λ code. (does : GpioLine → AtLine)
        → at_line (lines_of lines.now) which (λ line. if_active line (does line))
        ≡ refuses (lines_of lines.now) code) }
{
    let line = line_at(lines, which)?;
    if !line.active {
        return Err(INVALID);
    }
    Ok(line)
}
