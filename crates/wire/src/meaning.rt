ghost use Rattle.std.specs.Prelude.{ℕ, Bool};
ghost use Rattle.redis_cluster.specs.Unsplit.{Step, Keyspace};

/// What commands are thought to mean to a single key, and what the nodes are thought to hold at
/// first. No code reads it: what is proved for each `Meaning` holds for any.
pub trait Meaning {
    /// What stands at a key.
    ghost Cell: { Type 0 };

    /// What one key of a command does to its cell and adds to the reply.
    ghost step: { Step Cell };

    /// What the nodes hold before the first send.
    ghost initial: { Keyspace Cell };

    /// Whether the send of this number in the log, counted from 0, took effect though no value came.
    /// Nobody knows it of a lost reply, and what is proved for each `Meaning` holds for either.
    ghost took: { ℕ → Bool };
}

/// Stands for any `Meaning`, in the type of a client.
#[derive(Drop)]
pub struct Any;

impl Meaning for Any {
    ghost use Rattle.std.specs.Prelude.{ℕ, List, None, false};
    ghost use Rattle.resp_core.specs.Reply.{nil};

    // bytes, such as `DUMP` gives of any value
    ghost Cell = { List ℕ };

    ghost step = { λ registered name shared key extras cell. record { cell = None; result = record { value = nil; counts = false } } };

    ghost initial = { λ key. None };

    ghost took = { λ number. false };
}
