use super::policy::ResponsePolicy;
use super::route_by::RouteBy;
use cluster_slots::{AggregateOp, LogicalAggregateOp, MultiSlotArgPattern};

/// A name, how its commands are routed, and how the replies to them make one.
pub(super) type NameRow = (&'static [u8], (RouteBy, Option<ResponsePolicy>));

// The rows of all names are in four tables, by ascending bytes. They have no row for most names, whose
// key is argument 1. One table of all would take the prover a minute.

/// The rows of the names that begin with A to C.
pub(super) const NAMES_A_TO_C: [NameRow; 53] = [
    (
        b"ACL DELUSER",
        (RouteBy::AllNodes, Some(ResponsePolicy::AllSucceeded)),
    ),
    (b"ACL DRYRUN", (RouteBy::Random, None)),
    (b"ACL GENPASS", (RouteBy::Random, None)),
    (b"ACL GETUSER", (RouteBy::Random, None)),
    (b"ACL HELP", (RouteBy::Random, None)),
    (b"ACL LIST", (RouteBy::Random, None)),
    (b"ACL LOG", (RouteBy::Random, None)),
    (
        b"ACL SAVE",
        (RouteBy::AllNodes, Some(ResponsePolicy::AllSucceeded)),
    ),
    (
        b"ACL SETUSER",
        (RouteBy::AllNodes, Some(ResponsePolicy::AllSucceeded)),
    ),
    (b"ACL USERS", (RouteBy::Random, None)),
    (b"ACL WHOAMI", (RouteBy::Random, None)),
    (b"AUTH", (RouteBy::Random, None)),
    (b"BGSAVE", (RouteBy::Random, None)),
    (b"BITOP", (RouteBy::KeyAt(2), None)),
    (b"BLMPOP", (RouteBy::CountAt(2), None)),
    (b"BZMPOP", (RouteBy::CountAt(2), None)),
    (b"CLIENT GETNAME", (RouteBy::Random, None)),
    (b"CLIENT GETREDIR", (RouteBy::Random, None)),
    (b"CLIENT ID", (RouteBy::Random, None)),
    (b"CLIENT INFO", (RouteBy::Random, None)),
    (b"CLIENT KILL", (RouteBy::Random, None)),
    (b"CLIENT PAUSE", (RouteBy::Random, None)),
    (b"CLIENT REPLY", (RouteBy::Random, None)),
    (
        b"CLIENT SETINFO",
        (RouteBy::AllNodes, Some(ResponsePolicy::AllSucceeded)),
    ),
    (
        b"CLIENT SETNAME",
        (RouteBy::AllNodes, Some(ResponsePolicy::AllSucceeded)),
    ),
    (b"CLIENT TRACKINGINFO", (RouteBy::Random, None)),
    (b"CLIENT UNBLOCK", (RouteBy::Random, None)),
    (b"CLIENT UNPAUSE", (RouteBy::Random, None)),
    (b"CLUSTER ADDSLOTS", (RouteBy::SlotAt(2), None)),
    (b"CLUSTER COUNT-FAILURE-REPORTS", (RouteBy::Random, None)),
    (b"CLUSTER COUNTKEYSINSLOT", (RouteBy::SlotAt(2), None)),
    (b"CLUSTER DELSLOTS", (RouteBy::SlotAt(2), None)),
    (b"CLUSTER DELSLOTSRANGE", (RouteBy::SlotAt(2), None)),
    (b"CLUSTER GETKEYSINSLOT", (RouteBy::SlotAt(2), None)),
    (b"CLUSTER INFO", (RouteBy::Random, None)),
    (b"CLUSTER KEYSLOT", (RouteBy::Random, None)),
    (b"CLUSTER MEET", (RouteBy::Random, None)),
    (b"CLUSTER MYSHARDID", (RouteBy::Random, None)),
    (b"CLUSTER NODES", (RouteBy::Random, None)),
    (b"CLUSTER REPLICAS", (RouteBy::Random, None)),
    (b"CLUSTER RESET", (RouteBy::Random, None)),
    (b"CLUSTER SET-CONFIG-EPOCH", (RouteBy::Random, None)),
    (b"CLUSTER SETSLOT", (RouteBy::SlotAt(2), None)),
    (b"CLUSTER SHARDS", (RouteBy::Random, None)),
    (b"CLUSTER SLOTS", (RouteBy::Random, None)),
    (b"COMMAND", (RouteBy::Random, None)),
    (b"COMMAND COUNT", (RouteBy::Random, None)),
    (b"COMMAND GETKEYS", (RouteBy::Random, None)),
    (b"COMMAND LIST", (RouteBy::Random, None)),
    (b"CONFIG GET", (RouteBy::Random, None)),
    (
        b"CONFIG RESETSTAT",
        (RouteBy::AllNodes, Some(ResponsePolicy::AllSucceeded)),
    ),
    (
        b"CONFIG REWRITE",
        (RouteBy::AllNodes, Some(ResponsePolicy::AllSucceeded)),
    ),
    (
        b"CONFIG SET",
        (RouteBy::AllNodes, Some(ResponsePolicy::AllSucceeded)),
    ),
];

/// The rows of the names that begin with D to L.
pub(super) const NAMES_D_TO_L: [NameRow; 36] = [
    (
        b"DBSIZE",
        (
            RouteBy::AllMasters,
            Some(ResponsePolicy::Aggregate(AggregateOp::Sum)),
        ),
    ),
    (b"DEBUG", (RouteBy::AllMasters, None)),
    (
        b"DEL",
        (
            RouteBy::MultiSlot(MultiSlotArgPattern::KeysOnly),
            Some(ResponsePolicy::Aggregate(AggregateOp::Sum)),
        ),
    ),
    (b"ECHO", (RouteBy::Random, None)),
    (b"EVAL", (RouteBy::CountAt(2), None)),
    (b"EVALSHA", (RouteBy::CountAt(2), None)),
    (b"EVALSHA_RO", (RouteBy::CountAt(2), None)),
    (b"EVAL_RO", (RouteBy::CountAt(2), None)),
    (
        b"EXISTS",
        (
            RouteBy::MultiSlot(MultiSlotArgPattern::KeysOnly),
            Some(ResponsePolicy::Aggregate(AggregateOp::Sum)),
        ),
    ),
    (b"FCALL", (RouteBy::CountAt(2), None)),
    (b"FCALL_RO", (RouteBy::CountAt(2), None)),
    (
        b"FLUSHALL",
        (RouteBy::AllMasters, Some(ResponsePolicy::AllSucceeded)),
    ),
    (
        b"FLUSHDB",
        (RouteBy::AllMasters, Some(ResponsePolicy::AllSucceeded)),
    ),
    (
        b"FT._ALIASLIST",
        (RouteBy::AllMasters, Some(ResponsePolicy::CombineArrays)),
    ),
    (
        b"FT._LIST",
        (RouteBy::AllMasters, Some(ResponsePolicy::CombineArrays)),
    ),
    (
        b"FUNCTION DELETE",
        (RouteBy::AllMasters, Some(ResponsePolicy::AllSucceeded)),
    ),
    (
        b"FUNCTION FLUSH",
        (RouteBy::AllMasters, Some(ResponsePolicy::AllSucceeded)),
    ),
    (
        b"FUNCTION KILL",
        (RouteBy::AllNodes, Some(ResponsePolicy::OneSucceeded)),
    ),
    (b"FUNCTION LIST", (RouteBy::Random, None)),
    (
        b"FUNCTION LOAD",
        (RouteBy::AllMasters, Some(ResponsePolicy::AllSucceeded)),
    ),
    (
        b"FUNCTION RESTORE",
        (RouteBy::AllMasters, Some(ResponsePolicy::AllSucceeded)),
    ),
    (
        b"FUNCTION STATS",
        (RouteBy::AllNodes, Some(ResponsePolicy::Special)),
    ),
    (
        b"INFO",
        (RouteBy::AllMasters, Some(ResponsePolicy::Special)),
    ),
    (b"JSON.DEBUG", (RouteBy::KeyAt(2), None)),
    (
        b"JSON.MGET",
        (
            RouteBy::MultiSlot(MultiSlotArgPattern::KeysAndLastArg),
            Some(ResponsePolicy::CombineArrays),
        ),
    ),
    (
        b"JSON.MSET",
        (
            RouteBy::MultiSlot(MultiSlotArgPattern::KeyWithTwoArgTriples),
            Some(ResponsePolicy::AllSucceeded),
        ),
    ),
    (
        b"KEYS",
        (RouteBy::AllMasters, Some(ResponsePolicy::CombineArrays)),
    ),
    (b"LASTSAVE", (RouteBy::Random, None)),
    (
        b"LATENCY DOCTOR",
        (RouteBy::AllNodes, Some(ResponsePolicy::Special)),
    ),
    (
        b"LATENCY GRAPH",
        (RouteBy::AllNodes, Some(ResponsePolicy::Special)),
    ),
    (
        b"LATENCY HISTOGRAM",
        (RouteBy::AllNodes, Some(ResponsePolicy::Special)),
    ),
    (
        b"LATENCY HISTORY",
        (RouteBy::AllNodes, Some(ResponsePolicy::Special)),
    ),
    (
        b"LATENCY LATEST",
        (RouteBy::AllNodes, Some(ResponsePolicy::Special)),
    ),
    (
        b"LATENCY RESET",
        (
            RouteBy::AllNodes,
            Some(ResponsePolicy::Aggregate(AggregateOp::Sum)),
        ),
    ),
    (b"LMPOP", (RouteBy::CountAt(1), None)),
    (b"LOLWUT", (RouteBy::Random, None)),
];

/// The rows of the names that begin with M to S.
pub(super) const NAMES_M_TO_S: [NameRow; 39] = [
    (
        b"MEMORY DOCTOR",
        (RouteBy::AllMasters, Some(ResponsePolicy::Special)),
    ),
    (
        b"MEMORY MALLOC-STATS",
        (RouteBy::AllMasters, Some(ResponsePolicy::Special)),
    ),
    (
        b"MEMORY PURGE",
        (RouteBy::AllMasters, Some(ResponsePolicy::AllSucceeded)),
    ),
    (
        b"MEMORY STATS",
        (RouteBy::AllMasters, Some(ResponsePolicy::Special)),
    ),
    (b"MEMORY USAGE", (RouteBy::KeyAt(2), None)),
    (
        b"MGET",
        (
            RouteBy::MultiSlot(MultiSlotArgPattern::KeysOnly),
            Some(ResponsePolicy::CombineArrays),
        ),
    ),
    (b"MODULE LIST", (RouteBy::Random, None)),
    (b"MODULE LOAD", (RouteBy::Random, None)),
    (b"MODULE LOADEX", (RouteBy::Random, None)),
    (b"MODULE UNLOAD", (RouteBy::Random, None)),
    (
        b"MSET",
        (
            RouteBy::MultiSlot(MultiSlotArgPattern::KeyValuePairs),
            Some(ResponsePolicy::AllSucceeded),
        ),
    ),
    (b"OBJECT ENCODING", (RouteBy::KeyAt(2), None)),
    (b"OBJECT FREQ", (RouteBy::KeyAt(2), None)),
    (b"OBJECT IDLETIME", (RouteBy::KeyAt(2), None)),
    (b"OBJECT REFCOUNT", (RouteBy::KeyAt(2), None)),
    (b"PFDEBUG", (RouteBy::KeyAt(2), None)),
    (
        b"PING",
        (RouteBy::AllMasters, Some(ResponsePolicy::AllSucceeded)),
    ),
    (
        b"PUBSUB CHANNELS",
        (RouteBy::AllNodes, Some(ResponsePolicy::CombineArrays)),
    ),
    (
        b"PUBSUB NUMPAT",
        (
            RouteBy::AllNodes,
            Some(ResponsePolicy::Aggregate(AggregateOp::Sum)),
        ),
    ),
    (
        b"PUBSUB NUMSUB",
        (RouteBy::AllNodes, Some(ResponsePolicy::CombineMaps)),
    ),
    (
        b"PUBSUB SHARDCHANNELS",
        (RouteBy::AllNodes, Some(ResponsePolicy::CombineArrays)),
    ),
    (
        b"PUBSUB SHARDNUMSUB",
        (RouteBy::AllNodes, Some(ResponsePolicy::CombineMaps)),
    ),
    (
        b"RANDOMKEY",
        (
            RouteBy::AllMasters,
            Some(ResponsePolicy::FirstSucceededNonEmptyOrAllEmpty),
        ),
    ),
    (b"READONLY", (RouteBy::Random, None)),
    (b"READWRITE", (RouteBy::Random, None)),
    (b"REPLICAOF", (RouteBy::Undefined, None)),
    (b"SAVE", (RouteBy::Random, None)),
    (b"SCAN", (RouteBy::Undefined, None)),
    (
        b"SCRIPT EXISTS",
        (
            RouteBy::AllMasters,
            Some(ResponsePolicy::AggregateLogical(LogicalAggregateOp::And)),
        ),
    ),
    (
        b"SCRIPT FLUSH",
        (RouteBy::AllNodes, Some(ResponsePolicy::AllSucceeded)),
    ),
    (
        b"SCRIPT KILL",
        (RouteBy::AllNodes, Some(ResponsePolicy::OneSucceeded)),
    ),
    (
        b"SCRIPT LOAD",
        (RouteBy::AllNodes, Some(ResponsePolicy::AllSucceeded)),
    ),
    (b"SCRIPT SHOW", (RouteBy::Random, None)),
    (b"SHUTDOWN", (RouteBy::Undefined, None)),
    (b"SINTERCARD", (RouteBy::CountAt(1), None)),
    (b"SLAVEOF", (RouteBy::Undefined, None)),
    (
        b"SLOWLOG GET",
        (RouteBy::AllNodes, Some(ResponsePolicy::CombineArrays)),
    ),
    (
        b"SLOWLOG LEN",
        (
            RouteBy::AllNodes,
            Some(ResponsePolicy::Aggregate(AggregateOp::Sum)),
        ),
    ),
    (
        b"SLOWLOG RESET",
        (RouteBy::AllNodes, Some(ResponsePolicy::AllSucceeded)),
    ),
];

/// The rows of the names that begin with T to Z.
pub(super) const NAMES_T_TO_Z: [NameRow; 27] = [
    (b"TFCALL", (RouteBy::Random, None)),
    (b"TFCALLASYNC", (RouteBy::Random, None)),
    (b"TFUNCTION DELETE", (RouteBy::Random, None)),
    (b"TFUNCTION LIST", (RouteBy::Random, None)),
    (b"TFUNCTION LOAD", (RouteBy::Random, None)),
    (b"TIME", (RouteBy::Random, None)),
    (
        b"TOUCH",
        (
            RouteBy::MultiSlot(MultiSlotArgPattern::KeysOnly),
            Some(ResponsePolicy::Aggregate(AggregateOp::Sum)),
        ),
    ),
    (
        b"UNLINK",
        (
            RouteBy::MultiSlot(MultiSlotArgPattern::KeysOnly),
            Some(ResponsePolicy::Aggregate(AggregateOp::Sum)),
        ),
    ),
    (
        b"UNWATCH",
        (RouteBy::AllMasters, Some(ResponsePolicy::AllSucceeded)),
    ),
    (
        b"WAIT",
        (
            RouteBy::AllMasters,
            Some(ResponsePolicy::Aggregate(AggregateOp::Min)),
        ),
    ),
    (b"WAITAOF", (RouteBy::AllMasters, None)),
    (
        b"WATCH",
        (
            RouteBy::MultiSlot(MultiSlotArgPattern::KeysOnly),
            Some(ResponsePolicy::AllSucceeded),
        ),
    ),
    (b"XGROUP CREATE", (RouteBy::KeyAt(2), None)),
    (b"XGROUP CREATECONSUMER", (RouteBy::KeyAt(2), None)),
    (b"XGROUP DELCONSUMER", (RouteBy::KeyAt(2), None)),
    (b"XGROUP DESTROY", (RouteBy::KeyAt(2), None)),
    (b"XGROUP SETID", (RouteBy::KeyAt(2), None)),
    (b"XINFO CONSUMERS", (RouteBy::KeyAt(2), None)),
    (b"XINFO GROUPS", (RouteBy::KeyAt(2), None)),
    (b"XINFO STREAM", (RouteBy::KeyAt(2), None)),
    (b"XREAD", (RouteBy::KeyAfterStreams, None)),
    (b"XREADGROUP", (RouteBy::KeyAfterStreams, None)),
    (b"ZDIFF", (RouteBy::CountAt(1), None)),
    (b"ZINTER", (RouteBy::CountAt(1), None)),
    (b"ZINTERCARD", (RouteBy::CountAt(1), None)),
    (b"ZMPOP", (RouteBy::CountAt(1), None)),
    (b"ZUNION", (RouteBy::CountAt(1), None)),
];

/// The words that a second one belongs to, by ascending bytes.
pub(super) const TWO_WORD_NAMES: [&[u8]; 15] = [
    b"ACL",
    b"CLIENT",
    b"CLUSTER",
    b"COMMAND",
    b"CONFIG",
    b"FUNCTION",
    b"LATENCY",
    b"MEMORY",
    b"MODULE",
    b"OBJECT",
    b"PUBSUB",
    b"SCRIPT",
    b"SLOWLOG",
    b"XGROUP",
    b"XINFO",
];
