//! How the replies to calls are made.

ghost use Rattle.std.specs.Prelude.{◌≡◌, [], false, IfSome, IfNone, OnOk, OnErr, option_copied};
ghost use Rattle.redis_session.specs.Rules.{KeepOthers, is_several, node_in, rule_in, rule_or_one, without};

use redis_routing::ResponsePolicy;
use std::alloc::{AllocError, Global};
use std::collections::BTreeMap;
use std::marker::Model;

/// How the reply to a call is made of the answers to its parts.
#[derive(Debug, Drop)]
pub(crate) enum ReplyRule {
    /// It is the answer to the one part.
    One,
    /// As for this request, which is split by slot.
    Split(Vec<u8>),
    /// By this policy, of the answers of the nodes of these numbers. Each has one part, in this order.
    Several(ResponsePolicy, Vec<usize>),
}

/// The rules of the calls that are owed a reply, by their numbers. One that is not kept is `One`, so calls of one part
/// take no memory.
#[derive(Drop)]
pub(crate) struct Rules {
    rows: BTreeMap<u64, ReplyRule>,
}

impl Model for Rules {
    ghost use Rattle.redis_session.specs.Rules.{KeptRules};

    ghost Value = { KeptRules };

    ghost view = { λ rules. rules.rows.entries };
}

impl Rules {
    /// No call has a rule of its own. Takes no memory.
    pub(crate) fn new(alloc: Global) -> Rules
        ensures { result ≡ [] }
    {
        Rules {
            rows: BTreeMap::new(alloc),
        }
    }

    /// Adds the rule of a call that has none.
    ///
    /// # Errors
    ///
    /// If memory runs out, or a rule of the call is kept. Nothing changes then.
    pub(crate) fn add(&mut self, call: u64, rule: ReplyRule) -> Result<(), AllocError>
        ensures added { OnOk result (rule_in self.new call ≡ rule) }
        ensures others { OnOk result (KeepOthers call self.old self.new) }
        // To remove it leads back.
        ensures back { OnOk result (without call self.new ≡ self.old) }
        ensures unchanged { OnErr result (self.new ≡ self.old) }
    {
        if self.rows.contains_key(&call) {
            return Err(AllocError);
        }
        if let ReplyRule::One = rule {
            return Ok(());
        }
        self.rows.insert(call, rule)?;
        Ok(())
    }

    /// The rule of a call, if it is kept. O(log n).
    pub(crate) fn get(&self, call: u64) -> Option<&ReplyRule>
        ensures { rule_or_one (option_copied result) ≡ rule_in self.now call }
    {
        self.rows.get(&call)
    }

    /// Whether the reply to a call is made of those of several nodes. O(log n).
    pub(crate) fn is_several(&self, call: u64) -> bool
        ensures { result ≡ is_several (rule_in self.now call) }
    {
        matches!(self.rows.get(&call), Some(ReplyRule::Several(_, _)))
    }

    /// The node of a part, if its call goes to several nodes: the number of the node, or none if the map had no node.
    /// O(log n).
    pub(crate) fn node_of(&self, call: u64, part: usize) -> Option<Option<usize>>
        ensures some { IfSome result (λ node. node ≡ node_in (rule_in self.now call) part) }
        ensures none { IfNone result (is_several (rule_in self.now call) ≡ false) }
    {
        match self.rows.get(&call) {
            Some(ReplyRule::Several(_, nodes)) => Some(nodes.get(part).copied()),
            _ => None,
        }
    }

    /// Forgets the rule of a call.
    pub(crate) fn remove(&mut self, call: u64)
        ensures { self.new ≡ without call self.old }
    {
        self.rows.remove(&call);
    }
}
