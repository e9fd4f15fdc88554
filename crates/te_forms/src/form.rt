use te_terms::Value;

/// The form of an event over a ring: a swap by its role and its offer, or a barrier by its role.
#[derive(Clone, Copy)]
pub(crate) enum Form {
    Swap(u32, Value),
    Barrier(u32),
}
