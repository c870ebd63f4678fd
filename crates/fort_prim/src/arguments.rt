//! The arguments of a built-in declaration, by their types.
ghost use Rattle.std.specs.Prelude.{◌≡◌, [], ◌∷◌, map, MatchOption};
ghost use Rattle.fort_core.specs.declared.value.Value.{out-Value};
ghost use Rattle.fort_machine.specs.Primitives.{one_large, one_small, one_text, one_truth, one_value, two_large, two_small, two_texts, two_truths, two_values};
ghost use Rattle.fort_prim.specs.Arguments.{Refuses};

use fort_base::Bytes;
use fort_core::Value;

/// The numbers of two ZZ32.
pub(crate) fn two_small_numbers(arguments: &[Value]) -> Option<(i32, i32)>
    ensures { MatchOption result (Refuses two_small (map out-Value arguments.now))
        (λ numbers. arguments.now ≡ Value.Small numbers.0 ∷ Value.Small numbers.1 ∷ []) }
{
    if arguments.len() != 2 {
        return None;
    }
    match (&arguments[0], &arguments[1]) {
        (Value::Small(a), Value::Small(b)) => Some((*a, *b)),
        _ => None,
    }
}

/// The numbers of two ZZ64.
pub(crate) fn two_large_numbers(arguments: &[Value]) -> Option<(i64, i64)>
    ensures { MatchOption result (Refuses two_large (map out-Value arguments.now))
        (λ numbers. arguments.now ≡ Value.Large numbers.0 ∷ Value.Large numbers.1 ∷ []) }
{
    if arguments.len() != 2 {
        return None;
    }
    match (&arguments[0], &arguments[1]) {
        (Value::Large(a), Value::Large(b)) => Some((*a, *b)),
        _ => None,
    }
}

/// Two truths.
pub(crate) fn both_truths(arguments: &[Value]) -> Option<(bool, bool)>
    ensures { MatchOption result (Refuses two_truths (map out-Value arguments.now))
        (λ truths. arguments.now ≡ Value.Truth truths.0 ∷ Value.Truth truths.1 ∷ []) }
{
    if arguments.len() != 2 {
        return None;
    }
    match (&arguments[0], &arguments[1]) {
        (Value::Truth(a), Value::Truth(b)) => Some((*a, *b)),
        _ => None,
    }
}

/// Two texts.
pub(crate) fn both_texts(arguments: &[Value]) -> Option<(&Bytes, &Bytes)>
    ensures { MatchOption result (Refuses two_texts (map out-Value arguments.now))
        (λ texts. arguments.now ≡ Value.Text texts.0.now ∷ Value.Text texts.1.now ∷ []) }
{
    if arguments.len() != 2 {
        return None;
    }
    match (&arguments[0], &arguments[1]) {
        (Value::Text(a), Value::Text(b)) => Some((a.get(), b.get())),
        _ => None,
    }
}

/// Two values of any kind.
pub(crate) fn both_values(arguments: &[Value]) -> Option<(&Value, &Value)>
    ensures { MatchOption result (Refuses two_values arguments.now) (λ values. arguments.now
        ≡ values.0.now ∷ values.1.now ∷ []) }
{
    if arguments.len() == 2 {
        Some((&arguments[0], &arguments[1]))
    } else {
        None
    }
}

/// The number of one ZZ32.
pub(crate) fn small_number(arguments: &[Value]) -> Option<i32>
    ensures { MatchOption result (Refuses one_small (map out-Value arguments.now))
        (λ number. arguments.now ≡ Value.Small number ∷ []) }
{
    if arguments.len() != 1 {
        return None;
    }
    match &arguments[0] {
        Value::Small(a) => Some(*a),
        _ => None,
    }
}

/// The number of one ZZ64.
pub(crate) fn large_number(arguments: &[Value]) -> Option<i64>
    ensures { MatchOption result (Refuses one_large (map out-Value arguments.now))
        (λ number. arguments.now ≡ Value.Large number ∷ []) }
{
    if arguments.len() != 1 {
        return None;
    }
    match &arguments[0] {
        Value::Large(a) => Some(*a),
        _ => None,
    }
}

/// One truth.
pub(crate) fn truth(arguments: &[Value]) -> Option<bool>
    ensures { MatchOption result (Refuses one_truth (map out-Value arguments.now))
        (λ truth. arguments.now ≡ Value.Truth truth ∷ []) }
{
    if arguments.len() != 1 {
        return None;
    }
    match &arguments[0] {
        Value::Truth(a) => Some(*a),
        _ => None,
    }
}

/// One text.
pub(crate) fn single_text(arguments: &[Value]) -> Option<&Bytes>
    ensures { MatchOption result (Refuses one_text (map out-Value arguments.now))
        (λ text. arguments.now ≡ Value.Text text.now ∷ []) }
{
    if arguments.len() != 1 {
        return None;
    }
    match &arguments[0] {
        Value::Text(a) => Some(a.get()),
        _ => None,
    }
}

/// One value of any kind.
pub(crate) fn single(arguments: &[Value]) -> Option<&Value>
    ensures { MatchOption result (Refuses one_value arguments.now) (λ value. arguments.now
        ≡ value.now ∷ []) }
{
    if arguments.len() == 1 {
        Some(&arguments[0])
    } else {
        None
    }
}
