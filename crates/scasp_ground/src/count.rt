//! How many instances there are.
ghost use Rattle.std.specs.Prelude.{◌≡◌, ◌<◌, ◌≤◌, ◌^◌, IfSome, IfNone};
ghost use Rattle.scasp_ground.specs.Bounded.{count_over};

use scasp_syntax::Clause;

/// The greatest number of instances, before any is dropped.
pub const INSTANCE_LIMIT: u64 = 1_000_000;

/// How many ways there are to give so many variables members, where these are at most 1,000,000.
pub fn power(members: u64, variables: u64) -> Option<u64>
    ensures some { IfSome result (λ count. (count ≡ members ^ variables) × (count ≤ 1000000)) }
    ensures none { IfNone result (1000000 < members ^ variables) }
{
    match members {
        0 => Some(power_of_none(variables)),
        1 => Some(1),
        _ => power_above(members, variables),
    }
}

/// The same of no member: one way where there is no variable.
fn power_of_none(variables: u64) -> u64
    ensures power { result ≡ 0 ^ variables }
    ensures limit { result ≤ 1 }
{
    match variables {
        0 => 1,
        _ => 0,
    }
}

/// The same of more than one member, within twenty steps.
fn power_above(members: u64, variables: u64) -> Option<u64>
    requires { 1 < members }
    ensures some { IfSome result (λ count. (count ≡ members ^ variables) × (count ≤ 1000000)) }
    ensures none { IfNone result (1000000 < members ^ variables) }
{
    let mut count = 1;
    for _variable in 0..variables {
        if count > INSTANCE_LIMIT / members {
            return None;
        }
        count *= members;
    }
    Some(count)
}

/// How many instances the clauses have before any is dropped, where these are at most 1,000,000. Nothing is made.
pub fn count_instances(clauses: &[Clause], members: u64) -> Option<u64>
    ensures some { IfSome result (λ count. (count ≡ count_over members clauses.now) × (count ≤ 1000000)) }
    ensures none { IfNone result (1000000 < count_over members clauses.now) }
{
    let mut count = 0;
    for clause in clauses {
        match power(members, clause.vars) {
            Some(more) => count += more,
            None => return None,
        }
        if count > INSTANCE_LIMIT {
            return None;
        }
    }
    Some(count)
}
