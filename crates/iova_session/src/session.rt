//! The state of a session: its client, how many ranges its lists had, and its requests with their
//! answers.
ghost use Rattle.std.specs.Prelude.{◌≡◌, ◌+◌, [], None};
ghost use Rattle.iova_session.specs.Desks.{SessionState, IsAnswer, answered, next_client as the_next_client, count_listed as listed_in};

use crate::pairs::Pairs;
use iova_model::step::ClientId;
use iova_proto::answer::Answer;
use iova_proto::request::Request;
use std::marker::Model;

/// A session so far. Contracts see its pairs too, which take no memory.
#[derive(Drop)]
pub(crate) struct Session {
    number: u64,
    client: Option<ClientId>,
    listed: u64,
    log: Pairs,
}

impl Model for Session {
    ghost use Rattle.std.specs.Prelude.{◌≡◌, ◌≤◌, None};
    ghost use Rattle.iova_range.specs.declared.limits.TheConstants.{MAX_LISTED};
    ghost use Rattle.iova_session.specs.Desks.{SessionState, client_after, listed_after, AreAnswers};

    ghost Value = { SessionState };

    ghost view = { λ s. record {
      number = s.number;
      client = s.client;
      listed = s.listed;
      pairs = s.log;
    } };

    ghost invariant = { λ s. (s.client ≡ client_after None s.log)
        × (s.listed ≡ listed_after 0 s.log)
        × (s.listed ≤ MAX_LISTED) × AreAnswers s.number None 0 s.log };
}

impl Session {
    ghost use Rattle.iova_range.specs.declared.limits.TheConstants.{MAX_LISTED};
    ghost use Rattle.std.specs.Prelude.{◌≤◌};
    ghost use Rattle.iova_session.specs.Desks.{client_after, listed_after, AreAnswers};

    /// A session at the domain of this number that was asked nothing.
    pub(crate) fn new(number: u64) -> Session
        ensures { result ≡ record { number = number; client = None; listed = 0; pairs = [] } }
    {
        Session {
            number,
            client: None,
            listed: 0,
            log: Pairs::new(),
        }
    }

    /// The client that a hello opened.
    pub(crate) fn client(&self) -> Option<ClientId>
        ensures value { result ≡ self.now.client }
        ensures after { self.now.client ≡ client_after None self.now.pairs }
        ensures listed { self.now.listed ≡ listed_after 0 self.now.pairs }
        ensures answers { AreAnswers self.now.number None 0 self.now.pairs }
    {
        self.client
    }

    /// How many ranges its lists had.
    pub(crate) fn listed(&self) -> u64
        ensures value { result ≡ self.now.listed }
        ensures most { result ≤ MAX_LISTED }
    {
        self.listed
    }

    /// A request more, with its answer.
    #[inline(always)]
    pub(crate) fn add(&mut self, request: Request, answer: &Answer)
        requires { IsAnswer self.old.number self.old.client self.old.listed request answer.now }
        ensures { self.new ≡ answered self.old request answer.now }
    {
        let listed = self.listed + count_listed(answer);
        self.log.add(request, answer);
        self.listed = listed;
        note_client(&mut self.client, answer);
    }
}

/// Notes the session's client, where this answer opened it. Nothing is written otherwise.
#[inline(always)]
fn note_client(client: &mut Option<ClientId>, answer: &Answer)
    ensures { client.new ≡ the_next_client client.old answer.now }
{
    if let Answer::Opened(id) = answer {
        *client = Some(*id);
    }
}

/// How many ranges the answer lists.
#[inline(always)]
fn count_listed(answer: &Answer) -> u64
    ensures { result ≡ listed_in answer.now }
{
    match answer {
        Answer::Held(ranges) => ranges.as_slice().len() as u64,
        _ => 0,
    }
}
