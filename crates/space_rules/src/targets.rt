// Whether two pointers mix address spaces, and whether they have other targets.
ghost use Rattle.std.specs.Prelude.{◌≡◌, IfSome, option_map};
ghost use Rattle.meaning_types.specs.Spaces.{are_other_targets, have_other_targets, is_void, mix_spaces, targets_mix_spaces};
ghost use Rattle.c_types.specs.Table.{IsTypeId, type_at};
ghost use Rattle.space_rules.specs.Targets.{of_both_targets};

use c_types::Types;
use sparse_model::TypeId;

// Whether a target is void.
#[tactic(auto, using(crate::proofs::OutlineLemmas::is_void_told))]
fn is_void(types: &Types, t: TypeId) -> bool
    requires { IsTypeId types.now t }
    ensures { result ≡ is_void (type_at types.now t) }
{
    types.outline(t).is_void()
}

// Whether two targets mix spaces.
fn targets_mix_spaces(types: &Types, target: TypeId, other: TypeId) -> bool
    requires first { IsTypeId types.now target }
    requires second { IsTypeId types.now other }
    ensures { result ≡ targets_mix_spaces (type_at types.now target) (type_at types.now other) }
{
    !types.same_flags(target, other)
        || (!types.same(target, other) && types.same_without_flags(target, other))
}

// Whether two targets are other ones.
fn are_other_targets(types: &Types, target: TypeId, other: TypeId) -> bool
    requires first { IsTypeId types.now target }
    requires second { IsTypeId types.now other }
    ensures { result ≡ are_other_targets (type_at types.now target) (type_at types.now other) }
{
    !targets_mix_spaces(types, target, other)
        && (!types.same(target, other) && !(is_void(types, target) || is_void(types, other)))
}

// Whether there are two targets, and they mix spaces.
fn both_mix_spaces(types: &Types, target: Option<TypeId>, other: Option<TypeId>) -> bool
    requires first { IfSome target (IsTypeId types.now) }
    requires second { IfSome other (IsTypeId types.now) }
    ensures { result ≡ of_both_targets targets_mix_spaces (option_map (type_at types.now) target) (option_map (type_at types.now) other) }
{
    match (target, other) {
        (Some(target), Some(other)) => targets_mix_spaces(types, target, other),
        _ => false,
    }
}

// Whether there are two targets, and they are other ones.
fn both_are_other_targets(types: &Types, target: Option<TypeId>, other: Option<TypeId>) -> bool
    requires first { IfSome target (IsTypeId types.now) }
    requires second { IfSome other (IsTypeId types.now) }
    ensures { result ≡ of_both_targets are_other_targets (option_map (type_at types.now) target) (option_map (type_at types.now) other) }
{
    match (target, other) {
        (Some(target), Some(other)) => are_other_targets(types, target, other),
        _ => false,
    }
}

/// Whether two types are pointers whose targets mix spaces. It takes no memory.
#[tactic(auto, using(crate::proofs::OutlineLemmas::mix_spaces_told))]
pub fn mix_spaces(types: &Types, t: TypeId, other: TypeId) -> bool
    requires first { IsTypeId types.now t }
    requires second { IsTypeId types.now other }
    ensures { result ≡ mix_spaces (type_at types.now t) (type_at types.now other) }
{
    both_mix_spaces(types, types.target(t), types.target(other))
}

/// Whether two types are pointers with other targets: they mix no spaces, aren't the same, and neither points to void.
/// It takes no memory.
#[tactic(auto, using(crate::proofs::OutlineLemmas::have_other_targets_told))]
pub fn have_other_targets(types: &Types, t: TypeId, other: TypeId) -> bool
    requires first { IsTypeId types.now t }
    requires second { IsTypeId types.now other }
    ensures { result ≡ have_other_targets (type_at types.now t) (type_at types.now other) }
{
    both_are_other_targets(types, types.target(t), types.target(other))
}
