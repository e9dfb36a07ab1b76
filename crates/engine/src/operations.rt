// The operations, each with its checks and then its effect. Internal: callers have shown a sound session. A code stays a number:
// an operation may have any (RULES.md, refusal 6).
// They stay a function each, as each promises its own rule (`Plays grant_rule`, ..), and an operation stays its code and five fields:
// `demand_3` speaks of every code.
ghost use Rattle.std.specs.Prelude.{◌≤◌, ◌<◌, [], ◌∷◌};
ghost use Rattle.session.specs.Table.{read};
ghost use Rattle.rules.specs.Formula.{Holds};
ghost use Rattle.rules.specs.Sound.{sound};
ghost use Rattle.rules.specs.Step.{template_rule, task_rule, event_rule, block_rule, dependence_rule, satisfy_rule, release_rule};
ghost use Rattle.rules.specs.Step.{destroy_rule, deliver_rule, grant_rule, start_rule, end_rule, counted_rule};
ghost use Rattle.rules.specs.Answer.{answer_told};
ghost use Rattle.engine.specs.Played.{Plays, PlaysCode};

use rules::Refusal;
use session::Memory;

pub fn template(s: &mut Memory, caller: u64, n: u64) -> Result<u64, Refusal>
    requires { Holds (sound (read s.old)) }
    ensures { Plays template_rule (caller ∷ n ∷ []) s.old s.new (answer_told result) }
{
    checks::template_refusal(s, caller, n)?;
    Ok(effects::template(s, caller, n))
}

pub fn task(
    s: &mut Memory,
    caller: u64,
    tm: u64,
    n: u64,
    finish: u64,
    out: u64,
) -> Result<u64, Refusal>
    requires { Holds (sound (read s.old)) }
    ensures { Plays task_rule (caller ∷ tm ∷ n ∷ finish ∷ out ∷ []) s.old s.new (answer_told result) }
{
    checks::task_refusal(s, caller, tm, n, finish, out)?;
    Ok(effects::task(s, caller, tm, n, finish, out))
}

pub fn event(s: &mut Memory, caller: u64, ty: u64) -> Result<u64, Refusal>
    requires { Holds (sound (read s.old)) }
    ensures { Plays event_rule (caller ∷ ty ∷ []) s.old s.new (answer_told result) }
{
    checks::event_refusal(s, caller, ty)?;
    Ok(effects::event(s, caller, ty))
}

pub fn block(s: &mut Memory, caller: u64, hold: u64) -> Result<u64, Refusal>
    requires { Holds (sound (read s.old)) }
    ensures { Plays block_rule (caller ∷ hold ∷ []) s.old s.new (answer_told result) }
{
    checks::block_refusal(s, caller, hold)?;
    Ok(effects::block(s, caller, hold))
}

pub fn dependence(
    s: &mut Memory,
    caller: u64,
    source: u64,
    d: u64,
    j: u64,
    mode: u64,
) -> Result<u64, Refusal>
    requires { Holds (sound (read s.old)) }
    ensures { Plays dependence_rule (caller ∷ source ∷ d ∷ j ∷ mode ∷ []) s.old s.new (answer_told result) }
{
    checks::dependence_refusal(s, caller, source, d, j, mode)?;
    Ok(effects::dependence(s, caller, source, d, j, mode))
}

pub fn satisfy(s: &mut Memory, caller: u64, e: u64, b: u64, j: u64) -> Result<u64, Refusal>
    requires { Holds (sound (read s.old)) }
    ensures { Plays satisfy_rule (caller ∷ e ∷ b ∷ j ∷ []) s.old s.new (answer_told result) }
{
    checks::satisfy_refusal(s, caller, e, b, j)?;
    effects::satisfy(s, caller, e, b, j);
    Ok(0)
}

pub fn release(s: &mut Memory, caller: u64, b: u64) -> Result<u64, Refusal>
    requires { Holds (sound (read s.old)) }
    ensures { Plays release_rule (caller ∷ b ∷ []) s.old s.new (answer_told result) }
{
    checks::release_refusal(s, caller, b)?;
    holding::release(s, caller, b);
    Ok(0)
}

pub fn destroy(s: &mut Memory, caller: u64, h: u64) -> Result<u64, Refusal>
    requires { Holds (sound (read s.old)) }
    ensures { Plays destroy_rule (caller ∷ h ∷ []) s.old s.new (answer_told result) }
{
    checks::destroy_refusal(s, caller, h)?;
    Ok(retiring::destroy(s, caller, h))
}

pub fn deliver(s: &mut Memory, l: u64) -> Result<u64, Refusal>
    requires { Holds (sound (read s.old)) }
    ensures { Plays deliver_rule (l ∷ []) s.old s.new (answer_told result) }
{
    checks::deliver_refusal(s, l)?;
    effects::deliver(s, l);
    Ok(0)
}

pub fn grant(s: &mut Memory, t: u64) -> Result<u64, Refusal>
    requires { Holds (sound (read s.old)) }
    ensures { Plays grant_rule (t ∷ []) s.old s.new (answer_told result) }
{
    checks::grant_refusal(s, t)?;
    holding::grant(s, t);
    Ok(0)
}

pub fn start(s: &mut Memory, t: u64) -> Result<u64, Refusal>
    requires { Holds (sound (read s.old)) }
    ensures { Plays start_rule (t ∷ []) s.old s.new (answer_told result) }
{
    checks::start_refusal(s, t)?;
    holding::start(s, t);
    Ok(0)
}

pub fn end(s: &mut Memory, t: u64, b: u64) -> Result<u64, Refusal>
    requires { Holds (sound (read s.old)) }
    ensures { Plays end_rule (t ∷ b ∷ []) s.old s.new (answer_told result) }
{
    checks::end_refusal(s, t, b)?;
    Ok(retiring::end(s, t, b))
}

pub fn counted(s: &mut Memory, caller: u64, n: u64) -> Result<u64, Refusal>
    requires { Holds (sound (read s.old)) }
    ensures { Plays counted_rule (caller ∷ n ∷ []) s.old s.new (answer_told result) }
{
    checks::counted_refusal(s, caller, n)?;
    Ok(effects::counted(s, caller, n))
}

// Codes below 5: what makes objects.
pub fn make(s: &mut Memory, code: u64, f: [u64; 5]) -> Result<u64, Refusal>
    requires { Holds (sound (read s.old)) × (code < 5) }
    ensures { PlaysCode code f s.old s.new (answer_told result) }
{
    match code {
        1 => template(s, f[0], f[1]),
        2 => task(s, f[0], f[1], f[2], f[3], f[4]),
        3 => event(s, f[0], f[1]),
        4 => block(s, f[0], f[1]),
        _ => Err(Refusal::UnknownCode),
    }
}

// Codes 5 to 8: the other calls of a running task.
pub fn call(s: &mut Memory, code: u64, f: [u64; 5]) -> Result<u64, Refusal>
    requires { Holds (sound (read s.old)) × (5 ≤ code) × (code < 9) }
    ensures { PlaysCode code f s.old s.new (answer_told result) }
{
    match code {
        5 => dependence(s, f[0], f[1], f[2], f[3], f[4]),
        6 => satisfy(s, f[0], f[1], f[2], f[3]),
        7 => release(s, f[0], f[1]),
        _ => destroy(s, f[0], f[1]),
    }
}

// Codes from 9 on: the moves, which have no caller, what edition 2 adds, and the codes that there are not.
pub fn move_on(s: &mut Memory, code: u64, f: [u64; 5]) -> Result<u64, Refusal>
    requires { Holds (sound (read s.old)) × (9 ≤ code) }
    ensures { PlaysCode code f s.old s.new (answer_told result) }
{
    match code {
        9 => deliver(s, f[0]),
        10 => grant(s, f[0]),
        11 => start(s, f[0]),
        12 => end(s, f[0], f[1]),
        13 => counted(s, f[0], f[1]),
        _ => Err(Refusal::UnknownCode),
    }
}
