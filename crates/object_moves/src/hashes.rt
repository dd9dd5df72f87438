//! Hashes of values. No proof depends on them.
use run_types::Value;
use std::hash::{FoldHasher, Hasher};

/// Adds a value to a hash.
pub fn hash_value(value: Value, hash: &mut FoldHasher) {
    match value {
        Value::Int(number) => hash.write_i64(number),
        Value::Bool(truth) => hash.write_u8(u8::from(truth)),
        Value::Ref(name) => hash.write_u32(name),
        Value::Nil => hash.write_u8(2),
    }
}

/// Adds these values to a hash.
pub fn hash_values(values: &[Value], hash: &mut FoldHasher) {
    for value in values {
        hash_value(*value, hash);
    }
}
