// What the settings that were taken say.
ghost use Rattle.std.specs.Prelude.{◌≡◌, ◌≤◌, Some, None, IfOk, IfSome, if◌then◌else◌};
ghost use Rattle.std.specs.List.{AllByRecursion};
ghost use Rattle.fixed_ops.specs.Raw.{IsRaw};
ghost use Rattle.view_settings.specs.Kinds.{HasHeightSides, HasOneCount, greatest_of};
ghost use Rattle.view_settings.specs.Setting.{IsSetting};
ghost use Rattle.view_settings.specs.Settings.{settled};
ghost use Rattle.view_settings.specs.Verbs.{IsJob, kind_of};
ghost use Rattle.view_settings.specs.Views.{count_or, forge_of, is_empty, raw_or, value_given, window_of};
ghost use Rattle.view_places.specs.Window.{FitsHeight, IsCount, IsWindow};

use crate::name::Name;
use crate::setting::{Setting, Value};
use crate::{Forge, Job, Verb, WordReason};
use view_places::View;

// The raw number of 1.
const ONE: i64 = 1 << 32;

/// The job of the verb with the settings that were taken, and the defaults elsewhere.
pub(crate) fn job_given(verb: Verb, taken: &[Setting]) -> Result<Job, WordReason>
    requires { AllByRecursion (IsSetting verb) taken.now }
    ensures job { result ≡ settled verb taken.now }
    ensures keeps { IfOk result IsJob }
{
    match view_given(verb, taken) {
        Some(view) => verb.job(taken, view),
        None => Err(WordReason::EmptySpan),
    }
}

// The view that the settings make, and None where the ends of an axis are not in order.
fn view_given(verb: Verb, taken: &[Setting]) -> Option<View>
    requires { AllByRecursion (IsSetting verb) taken.now }
    ensures view { let v = window_of taken.now in result ≡ (if is_empty v then None else Some v) }
    ensures window { IfSome result IsWindow }
    ensures height { HasHeightSides (kind_of verb) → IfSome result FitsHeight }
    ensures square { HasOneCount (kind_of verb)
        → IfSome result (λ v. (v.nx ≡ v.ny) × (v.nx ≤ 256)) }
{
    let x0 = raw_or(verb, taken, Name::X0, -ONE);
    let x1 = raw_or(verb, taken, Name::X1, ONE);
    let y0 = raw_or(verb, taken, Name::Y0, -ONE);
    let y1 = raw_or(verb, taken, Name::Y1, ONE);
    let z0 = raw_or(verb, taken, Name::Z0, -ONE);
    let z1 = raw_or(verb, taken, Name::Z1, ONE);
    if x0 > x1 || y0 > y1 || z0 > z1 {
        return None;
    }
    let n = small_count_or(verb, taken, Name::N, 64);
    Some(View {
        x0,
        x1,
        y0,
        y1,
        z0,
        z1,
        z: raw_or(verb, taken, Name::Z, 0),
        w: small_count_or(verb, taken, Name::W, 512),
        h: small_count_or(verb, taken, Name::H, 512),
        d: small_count_or(verb, taken, Name::D, 255),
        nx: small_count_or(verb, taken, Name::Nx, n),
        ny: small_count_or(verb, taken, Name::Ny, n),
        nz: small_count_or(verb, taken, Name::Nz, n),
    })
}

/// The model that the settings say, which is drawn in this view.
pub(crate) fn forge_given(verb: Verb, taken: &[Setting], view: View) -> Forge
    requires each { AllByRecursion (IsSetting verb) taken.now }
    requires view { view ≡ window_of taken.now }
    ensures forge { result ≡ forge_of taken.now }
    ensures view { result.view ≡ view }
    ensures solids { IsCount 5000 result.solids }
{
    Forge {
        seed: count_or(taken, Name::Seed, 0),
        solids: small_count_or(verb, taken, Name::Solids, 16),
        view,
    }
}

// The raw number that was given under a name, or this one.
fn raw_or(verb: Verb, taken: &[Setting], name: Name, default: i64) -> i64
    requires each { AllByRecursion (IsSetting verb) taken.now }
    requires default { IsRaw default }
    ensures value { result ≡ raw_or (value_given name taken.now) default }
    ensures raw { IsRaw result }
{
    match value_given(taken, name) {
        Some(Value::Raw(v)) => v,
        _ => default,
    }
}

// The count that was given under a name, or this one, for a count that is at least 1.
fn small_count_or(verb: Verb, taken: &[Setting], name: Name, default: u32) -> u32
    requires each { AllByRecursion (IsSetting verb) taken.now }
    requires default { IsCount (greatest_of name) default }
    ensures value { result ≡ count_or (value_given name taken.now) default }
    ensures within { IsCount (greatest_of name) result }
{
    match value_given(taken, name) {
        Some(Value::Count(count)) => count as u32,
        _ => default,
    }
}

// The count that was given under a name, or this one.
fn count_or(taken: &[Setting], name: Name, default: u64) -> u64
    ensures { result ≡ count_or (value_given name taken.now) default }
{
    match value_given(taken, name) {
        Some(Value::Count(count)) => count,
        _ => default,
    }
}

// The value that was given under a name.
fn value_given(taken: &[Setting], name: Name) -> Option<Value>
    ensures { result ≡ value_given name taken.now }
{
    taken
        .iter()
        .find(|setting| name == setting.name)
        .map(|setting| setting.value)
}
