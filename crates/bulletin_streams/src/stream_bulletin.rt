//! One bulletin of a stream.
ghost use Rattle.std.specs.Prelude.{◌≡◌, IfSome};
ghost use Rattle.bulletin_streams.specs.Spelling.{IsSpelling};

use crgc_ids::Octets;
use history_model::Bulletin;
use std::marker::Model;

/// A bulletin of a stream, with its spelling while that is kept. Contracts see the bulletin.
#[derive(Drop)]
pub struct StreamBulletin {
    bulletin: Bulletin,
    spelling: Option<Octets>,
}

impl Model for StreamBulletin {
    ghost use Rattle.std.specs.Prelude.{IfSome};
    ghost use Rattle.history_model.specs.declared.records.Bulletin.{Bulletin};
    ghost use Rattle.bulletin_streams.specs.Spelling.{IsSpelling};

    ghost Value = { Bulletin };

    ghost view = { λ b. b.bulletin };

    ghost invariant = { λ b. IfSome b.spelling (λ bytes. IsSpelling b.bulletin bytes) };
}

impl StreamBulletin {
    /// The bulletin, without a spelling.
    pub fn of(bulletin: Bulletin) -> StreamBulletin
        ensures { result ≡ bulletin }
    {
        StreamBulletin {
            bulletin,
            spelling: None,
        }
    }

    /// The bulletin.
    pub fn bulletin(&self) -> &Bulletin
        ensures { result.now ≡ self.now }
    {
        &self.bulletin
    }

    /// Its spelling, if that is kept.
    pub fn spelling(&self) -> Option<&Octets>
        ensures { IfSome result (λ bytes. IsSpelling self.now bytes.now) }
    {
        self.spelling.as_ref()
    }

    /// These bytes, its spelling, are kept.
    pub fn keep(&mut self, bytes: Octets)
        requires { IsSpelling self.old bytes }
        ensures { self.new ≡ self.old }
    {
        self.spelling = Some(bytes);
    }

    /// Its spelling is kept no longer.
    pub fn forget(&mut self)
        ensures { self.new ≡ self.old }
    {
        self.spelling = None;
    }
}
