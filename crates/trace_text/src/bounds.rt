use arc_core::Bounds;

/// The bounds of a feed where no line gives them (OpenZFS `L2ARC_WRITE_SIZE` and `L2ARC_HEADROOM`).
pub(crate) const DEFAULT_BOUNDS: Bounds = Bounds {
    write_max: 8_388_608,
    headroom: 2,
};
