//! The replies of a script, kept in few bytes.
ghost use Rattle.std.specs.Prelude.{◌≡◌, ◌∷◌, [], ◌++◌, length, IfOk, OnOk, OnErr};
ghost use Rattle.vx_file.specs.CompactReplies.{whole_count, registered_count, reply_by, reply_in, Keeps};
ghost use Rattle.vx_source.specs.declared.reply.Reply.TheVariants.{Driven};

use std::alloc::{AllocError, Global};
use std::marker::Model;
use vx_base::Sequence;
use vx_source::Reply;

/// How a reply is kept: by its name, or whole.
#[derive(Clone, Copy, Debug, PartialEq, Eq)]
pub(crate) enum ReplyKind {
    /// Registered, and not held, under the number that counts those that registered.
    Registered,
    /// The same, and held.
    Held,
    MissingSegment,
    Pending,
    Dropped,
    NotLive,
    /// A drive that read no span.
    Idle,
    Whole,
}

impl ReplyKind {
    /// How a reply is kept behind so many that registered.
    #[inline(always)]
    fn of(reply: &Reply, next: u64) -> ReplyKind
        ensures { Keeps next reply.now result }
    {
        match reply {
            Reply::Registered { number, held } if *number == next => {
                if *held {
                    ReplyKind::Held
                } else {
                    ReplyKind::Registered
                }
            }
            Reply::MissingSegment => ReplyKind::MissingSegment,
            Reply::Pending => ReplyKind::Pending,
            Reply::Dropped => ReplyKind::Dropped,
            Reply::NotLive => ReplyKind::NotLive,
            Reply::Driven(spans) if spans.is_empty() => ReplyKind::Idle,
            _ => ReplyKind::Whole,
        }
    }

    /// Whether a reply of this kind is kept whole: how many are, of one.
    #[inline(always)]
    fn whole_count(self) -> usize
        ensures { result ≡ whole_count self }
    {
        usize::from(self == ReplyKind::Whole)
    }

    /// How many a reply of this kind registers.
    #[inline(always)]
    fn registered_count(self) -> u64
        ensures { result ≡ registered_count self }
    {
        u64::from(self == ReplyKind::Registered || self == ReplyKind::Held)
    }

    /// The reply of this kind behind so many that registered; one that is kept whole is this one, and that of a drive
    /// without a span is lent.
    #[inline(always)]
    fn told<'a>(self, idle: &'a Reply, next: u64, whole: &'a [Reply]) -> Told<'a>
        requires { idle.now ≡ Driven [] }
        ensures { reply_in result ≡ reply_by self next whole.now }
    {
        match self {
            ReplyKind::Registered => Told::Short(Reply::Registered {
                number: next,
                held: false,
            }),
            ReplyKind::Held => Told::Short(Reply::Registered {
                number: next,
                held: true,
            }),
            ReplyKind::MissingSegment => Told::Short(Reply::MissingSegment),
            ReplyKind::Pending => Told::Short(Reply::Pending),
            ReplyKind::Dropped => Told::Short(Reply::Dropped),
            ReplyKind::NotLive => Told::Short(Reply::NotLive),
            ReplyKind::Idle => Told::Whole(idle),
            ReplyKind::Whole => match whole {
                [reply] => Told::Whole(reply),
                _ => Told::Short(Reply::NotLive),
            },
        }
    }
}

/// The replies of a script, which contracts see as a list of them. A reply that a name tells takes one byte.
#[derive(Drop)]
pub struct Replies {
    idle: Reply,
    kinds: Vec<ReplyKind>,
    whole: Vec<Reply>,
    registered: u64,
}

impl Model for Replies {
    ghost use Rattle.std.specs.Prelude.{◌≡◌, List, [], length};
    ghost use Rattle.vx_file.specs.CompactReplies.{replies_by, whole_in, registered_in};
    ghost use Rattle.vx_source.specs.declared.reply.Reply.{Reply};
    ghost use Rattle.vx_source.specs.declared.reply.Reply.TheVariants.{Driven};

    ghost Value = { List Reply };

    ghost view = { λ r. replies_by 0 r.kinds.items r.whole.items };

    ghost invariant = { λ r. (whole_in r.kinds.items ≡ length r.whole.items) × (registered_in r.kinds.items ≡ r.registered) × (r.idle ≡ Driven []) };
}

impl Replies {
    /// No reply.
    pub fn new(alloc: Global) -> Replies
        ensures { result ≡ [] }
    {
        Replies {
            idle: Reply::Driven(Sequence::new(alloc)),
            kinds: Vec::new(alloc),
            whole: Vec::new(alloc),
            registered: 0,
        }
    }

    /// No reply, with room for the names of so many.
    pub(crate) fn with_capacity(alloc: Global, count: usize) -> Result<Replies, AllocError>
        ensures { IfOk result (λ replies. replies ≡ []) }
    {
        Ok(Replies {
            idle: Reply::Driven(Sequence::new(alloc)),
            kinds: Vec::with_capacity(alloc, count)?,
            whole: Vec::new(alloc),
            registered: 0,
        })
    }

    /// Makes room for all replies that are left, if there is memory for it, before the first that is kept whole.
    #[inline(always)]
    fn make_room(&mut self, reply: &Reply)
        ensures { self.new ≡ self.old }
    {
        if !self.whole.is_empty() || ReplyKind::of(reply, self.registered) != ReplyKind::Whole {
            return;
        }
        let left = self.kinds.capacity().saturating_sub(self.kinds.len());
        let _ = self.whole.reserve(left);
    }

    #[inline(always)]
    fn add(&mut self, reply: Reply) -> Result<(), AllocError>
        ensures ok { OnOk result (self.new ≡ self.old ++ reply ∷ []) }
        ensures err { OnErr result (self.new ≡ self.old) }
    {
        let kind = ReplyKind::of(&reply, self.registered);
        self.kinds.push(kind)?;
        if kind.whole_count() == 0 {
            self.registered += kind.registered_count();
            return Ok(());
        }
        match self.whole.push(reply) {
            Ok(()) => Ok(()),
            Err(failed) => {
                self.kinds.pop();
                Err(failed.into())
            }
        }
    }

    /// Adds a reply at the end. Without memory nothing changes.
    #[inline(always)]
    pub(crate) fn push(&mut self, reply: Reply) -> Result<(), AllocError>
        ensures ok { OnOk result (self.new ≡ self.old ++ reply ∷ []) }
        ensures err { OnErr result (self.new ≡ self.old) }
    {
        self.make_room(&reply);
        self.add(reply)
    }

    /// How many replies there are.
    pub fn len(&self) -> usize
        ensures { result ≡ length self.now }
    {
        self.kinds.len()
    }

    /// The replies, one after another.
    pub fn iter(&self) -> ScriptReplies<'_>
        ensures { result ≡ self.now }
    {
        ScriptReplies {
            idle: &self.idle,
            kinds: self.kinds.as_slice(),
            whole: self.whole.as_slice(),
            reply: 0,
            kept: 0,
            registered: 0,
        }
    }
}

/// A reply that was taken: made from its name, or lent.
#[derive(Drop)]
pub enum Told<'a> {
    Short(Reply),
    Whole(&'a Reply),
}

impl<'a> Told<'a> {
    pub fn reply(&self) -> &Reply
        ensures { result.now ≡ reply_in self.now }
    {
        match self {
            Told::Short(reply) => reply,
            Told::Whole(reply) => reply,
        }
    }
}

/// The replies that are left to be taken: those from a place on, behind so many that registered.
#[derive(Drop)]
pub struct ScriptReplies<'a> {
    idle: &'a Reply,
    kinds: &'a [ReplyKind],
    whole: &'a [Reply],
    reply: usize,
    kept: usize,
    registered: u64,
}

impl<'a> Model for ScriptReplies<'a> {
    ghost use Rattle.std.specs.Prelude.{◌≡◌, ◌≤◌, List, [], length, drop};
    ghost use Rattle.vx_file.specs.CompactReplies.{replies_by, whole_in};
    ghost use Rattle.vx_source.specs.declared.reply.Reply.{Reply};
    ghost use Rattle.vx_source.specs.declared.reply.Reply.TheVariants.{Driven};

    ghost Value = { List Reply };

    ghost view = { λ r. replies_by r.registered (drop r.reply r.kinds.now) (drop r.kept r.whole.now) };

    ghost invariant = { λ r. (r.reply ≤ length r.kinds.now) × (r.kept ≤ length r.whole.now) × (r.registered ≤ r.reply)
        × (whole_in (drop r.reply r.kinds.now) ≡ length (drop r.kept r.whole.now)) × (r.idle.now ≡ Driven []) };
}

impl<'a> Iterator for ScriptReplies<'a> {
    type Item = Told<'a>;

    ghost use Rattle.std.specs.Iterator.{YieldsFirstBy, item_count};
    ghost use Rattle.vx_file.specs.CompactReplies.{reply_in};

    ghost next_gives = { YieldsFirstBy reply_in (λ r. r) };

    ghost remaining = { item_count (λ r. r) };

    #[inline(always)]
    fn next(&mut self) -> Option<Told<'a>> {
        let kind = *self.kinds.get(self.reply)?;
        let end = self.kept + kind.whole_count();
        let told = kind.told(self.idle, self.registered, &self.whole[self.kept..end]);
        self.reply += 1;
        self.kept = end;
        self.registered += kind.registered_count();
        Some(told)
    }
}
