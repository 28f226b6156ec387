// The offset of GPS time from UTC, from 4Bh data.
#![tactic(auto)]

ghost use Rattle.std.specs.Prelude.{◌≡◌, true};
ghost use Rattle.std.specs.Float.{binary64};
ghost use Rattle.std.specs.Float.Ieee.{of_bits};
ghost use Rattle.std.specs.Float.Ieee.Scale.{finite};
ghost use Rattle.refusals.specs.Numbers.{code};
ghost use Rattle.utc.specs.Offset.{elapsed, in_time, polynomial, refusal_of, answer_of, from_fields, offset_of};

use fields_4b::Scales;
use refusals::Refusal;
use std::num::f64_from_bits_with_nan;

// The flag of a message whose GPS time and UTC are reliable.
const RELIABLE: u8 = 255;

// Of a week.
const LAST_SECOND: u32 = 604_799;

// In seconds.
const WEEK: i32 = 604_800;

// By which the weeks may differ, either way.
const MOST_WEEKS: u16 = 127;

// Whether the bits of an FP64 are those of a finite number.
#[tactic(auto, using(crate::proofs::FloatLaws::finite_is))]
fn is_finite(bits: u64) -> bool
    ensures { result ≡ finite (of_bits binary64 bits) }
{
    f64_from_bits_with_nan(bits).is_finite()
}

// Whether both seconds are of a week, and the weeks no more than 127 apart.
#[tactic(auto, using(crate::proofs::ElapsedLaws::apart_near), unfolding(crate::specs::Offset::in_time))]
fn in_time(second: u32, tot: u32, week: u16, wnt: u16) -> bool
    ensures { result ≡ in_time second tot week wnt }
{
    second <= LAST_SECOND && tot <= LAST_SECOND && week.abs_diff(wnt) <= MOST_WEEKS
}

// dt: the seconds from the message's own time.
fn elapsed_seconds(second: u32, tot: u32, week: u16, wnt: u16) -> i32
    requires { in_time second tot week wnt ≡ true }
    ensures { result ≡ elapsed second tot week wnt }
{
    second as i32 - tot as i32 + WEEK * (week as i32 - wnt as i32)
}

// Three steps, each rounded once, in this order.
#[tactic(auto, unfolding(crate::specs::Offset::polynomial))]
fn evaluate(a0: f64, a1: f64, dt: i32, leap: i32) -> f64
    ensures { result ≡ polynomial a0 a1 dt leap }
{
    a1 * f64::from(dt) + a0 + f64::from(leap)
}

// Questions 14 to 16, in order: the first that says no refuses.
#[tactic(auto, unfolding(crate::specs::Offset::refusal_of))]
fn judge(f: Scales, second: u32, week: u16) -> Result<(), Refusal>
    ensures { code result ≡ refusal_of f second week }
{
    if f.gps_reliable != RELIABLE {
        return Err(Refusal::Unreliable);
    }
    if !in_time(second, f.tot, week, f.wnt) {
        return Err(Refusal::Time);
    }
    if !is_finite(f.a0) || !is_finite(f.a1) {
        return Err(Refusal::NotFinite);
    }
    Ok(())
}

#[tactic(auto, unfolding(crate::specs::Offset::from_fields, crate::specs::Offset::seconds_of))]
fn from_fields(f: Scales, second: u32, week: u16) -> Result<f64, Refusal>
    ensures { answer_of result ≡ from_fields f second week }
{
    judge(f, second, week)?;
    let dt = elapsed_seconds(second, f.tot, week, f.wnt);
    let a0 = f64::from_bits(f.a0);
    let a1 = f64::from_bits(f.a1);
    Ok(evaluate(a0, a1, dt, i32::from(f.dt_ls)))
}

// GPS time less UTC, at a second of a week.
#[tactic(auto, unfolding(crate::specs::Offset::offset_of))]
pub fn offset(body: &[u8], second: u32, week: u16) -> Result<f64, Refusal>
    ensures { answer_of result ≡ offset_of body.now second week }
{
    let scales = encoding::decode::<Scales>(body)?;
    from_fields(scales, second, week)
}
