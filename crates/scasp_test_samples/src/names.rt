//! Atoms, as tables write them.

/// An atom: the place of its name in a table of names, and whether it has the one argument `c`.
#[derive(Clone, Copy, Debug, PartialEq, Eq)]
pub struct Name {
    pub place: u64,
    pub has_argument: bool,
}

/// The atom `p`.
pub const P: Name = Name {
    place: 2,
    has_argument: false,
};

/// The atom `q`.
pub const Q: Name = Name {
    place: 3,
    has_argument: false,
};

/// The atom `r`.
pub const R: Name = Name {
    place: 4,
    has_argument: false,
};

/// The atom `s`.
pub const S: Name = Name {
    place: 5,
    has_argument: false,
};

/// The atom `t`.
pub const T: Name = Name {
    place: 6,
    has_argument: false,
};

/// The atom `u`.
pub const U: Name = Name {
    place: 7,
    has_argument: false,
};

/// The atom `p(c)`.
pub const P_OF_C: Name = Name {
    place: 2,
    has_argument: true,
};

/// The atom `q(c)`.
pub const Q_OF_C: Name = Name {
    place: 3,
    has_argument: true,
};

/// The atom `r(c)`.
pub const R_OF_C: Name = Name {
    place: 4,
    has_argument: true,
};

/// The atom `s(c)`.
pub const S_OF_C: Name = Name {
    place: 5,
    has_argument: true,
};
