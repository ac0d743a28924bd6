/// The kinds of edges, as they are written.
#[derive(Clone, Copy, Debug, PartialEq, Eq)]
pub enum Arrow {
    Right,
    Left,
    Both,
}

/// What a vertex is marked as.
#[derive(Clone, Copy, Debug, PartialEq, Eq)]
pub enum Role {
    Exposure,
    Outcome,
    Adjusted,
    Latent,
}

/// What a text says of its vertices, piece by piece.
#[derive(Clone, Copy, Debug, PartialEq, Eq)]
pub enum Remark {
    /// A group begins, which no edge joins to the one before.
    Begins,
    /// A group begins, which an edge joins to the one before.
    Joined(Arrow),
    /// The group has this member.
    Member(u8),
    /// The member before has this role.
    HasRole(Role),
}

impl Role {
    ghost use Rattle.std.specs.Prelude.{◌≡◌};
    ghost use Rattle.dag_reader.specs.Grammar.{role_of};

    /// The role that an attribute names.
    pub fn named(name: &[u8]) -> Option<Role>
        ensures { result ≡ role_of name.now }
    {
        if name == b"exposure".as_slice() {
            return Some(Role::Exposure);
        }
        if name == b"outcome".as_slice() {
            return Some(Role::Outcome);
        }
        if name == b"adjusted".as_slice() {
            return Some(Role::Adjusted);
        }
        if name == b"latent".as_slice() {
            return Some(Role::Latent);
        }
        None
    }
}
