// The numbers of documents 01 and 02: what each call answers, for a caller that has numbers alone. With the number goes one more: the count, the proof's
// length, the hops found good, or the wrong element or entry; and with 9 and 10 the place where a proof broke, which is 0, 0 with every other number.
// Each error of the calls becomes such numbers by `From`, and so does what a call answers with a number where it is good.
#![tactic(auto)]

ghost use Rattle.std.specs.Prelude.{◌≡◌, Err, IfErr, IfOk, OnOk};
ghost use Rattle.rules.specs.Calls.{gives, refuses};
ghost use Rattle.hash.specs.declared.Digest.{Digest};
ghost use Rattle.sha256.specs.Stream as sha256;
ghost use Rattle.store.specs.Told as read;
ghost use Rattle.audit.specs.Told.{audit_told};
ghost use Rattle.build.specs.Told.{built_told};
ghost use Rattle.membership.specs.Verdicts as member;
ghost use Rattle.advancement.specs.Advancing.{answer_of};
ghost use Rattle.handles.specs.Told.{handle_number};
ghost use Rattle.trie.specs.Told.{root_number};
ghost use Rattle.prove.specs.Told as prove;
ghost use Rattle.lookup.specs.Told.{verdict_number};
ghost use Rattle.saved.specs.Told.{saved_told, reading_number};
ghost use Rattle.hmac.specs.Told.{coding_number};
ghost use Rattle.sealed.specs.Told.{adding_told, checked_told};
ghost use Rattle.numbers.specs.Saying.{Says};

use advancement::AdvanceError;
use audit::AuditError;
use build::BuildError;
use handles::KeyTooLong;
use hmac::TooLong;
use lookup::LookupError;
use membership::MembershipError;
use prove::ProveError;
use saved::{FileError, SaveError};
use sealed::{AddError, CheckError};
use sha256::HashError;
use store::{AppendError, Damaged, ReadError, StoreTooShort};
use trie::ListRefused;

// 01's number, the number given with it, and where a proof broke: the element reached, and the row for 9 or the level hopped for 10.
#[derive(Clone, Copy, Debug, PartialEq, Eq)]
pub struct Said {
    pub number: u64,
    pub value: u64,
    pub element: u64,
    pub level: u64,
}

// What shows no place.
pub fn say(number: u64, value: u64) -> Said
    ensures { (result.number ≡ number) × (result.value ≡ value) × (result.element ≡ 0) × (result.level ≡ 0) }
{
    Said {
        number,
        value,
        element: 0,
        level: 0,
    }
}

// What a call answers that gives a number where it is good: the count, the proof's length, the hops, the entries.
impl<E: Into<Said>> From<Result<u64, E>> for Said {
    ghost from_gives = { λ r s. IfOk r (λ n. Says s (gives n)) × IfErr r (λ e. E.converts e s) };

    fn from(r: Result<u64, E>) -> Said {
        match r {
            Ok(n) => say(0, n),
            Err(e) => e.into(),
        }
    }
}

// What a call answers that gives no number where it is good.
impl<E: Into<Said>> From<Result<(), E>> for Said {
    ghost from_gives = { λ r s. OnOk r (Says s (gives 0)) × IfErr r (λ e. E.converts e s) };

    fn from(r: Result<(), E>) -> Said {
        match r {
            Ok(()) => say(0, 0),
            Err(e) => e.into(),
        }
    }
}

impl From<StoreTooShort> for Said {
    ghost from_gives = { λ e s. Says s (read.start_told (Err e)) };

    fn from(_e: StoreTooShort) -> Said {
        say(6, 0)
    }
}

impl From<Damaged> for Said {
    ghost from_gives = { λ e s. Says s (read.count_told (Err e)) };

    fn from(_e: Damaged) -> Said {
        say(1, 0)
    }
}

impl From<AppendError> for Said {
    ghost from_gives = { λ e s. Says s (read.append_told (Err e)) };

    fn from(e: AppendError) -> Said {
        match e {
            AppendError::Damaged => say(1, 0),
            AppendError::TooLong => say(3, 0),
            AppendError::Full => say(5, 0),
        }
    }
}

impl From<ReadError> for Said {
    ghost from_gives = { λ e s. Says s (refuses (read.found_told {T = Digest} (Err e))) };

    fn from(e: ReadError) -> Said {
        match e {
            ReadError::Damaged => say(1, 0),
            ReadError::NoSuchNumber => say(4, 0),
        }
    }
}

// With 12 goes the wrong element.
impl From<AuditError> for Said {
    ghost from_gives = { λ e s. Says s (audit_told (Err e)) };

    fn from(e: AuditError) -> Said {
        match e {
            AuditError::Damaged => say(1, 0),
            AuditError::Wrong(j) => say(12, j.0),
        }
    }
}

impl From<BuildError> for Said {
    ghost from_gives = { λ e s. Says s (built_told (Err e)) };

    fn from(e: BuildError) -> Said {
        match e {
            BuildError::Damaged => say(1, 0),
            BuildError::NoSuchNumber => say(4, 0),
            BuildError::OutputShort => say(6, 0),
        }
    }
}

// With 10 and 11 go the hops found good, and with 10 the place.
impl From<MembershipError> for Said {
    ghost from_gives = { λ e s. Says s (member.answer_of (Err e)) };

    #[tactic(auto, unfolding(membership::specs::Verdicts::verdict_of))]
    fn from(e: MembershipError) -> Said {
        match e {
            MembershipError::EntryTooLong => say(3, 0),
            MembershipError::NoSuchElement => say(4, 0),
            MembershipError::WrongLength => say(7, 0),
            MembershipError::OtherEntry => say(8, 0),
            MembershipError::LinkDiffers {
                hops,
                element,
                level,
            } => Said {
                number: 10,
                value: hops,
                element,
                level,
            },
            MembershipError::DigestDiffers { hops } => say(11, hops),
        }
    }
}

// With 9 and 10 go the hops found good and the place, with 11 the hops.
impl From<AdvanceError> for Said {
    ghost from_gives = { λ e s. Says s (answer_of (Err e)) };

    fn from(e: AdvanceError) -> Said {
        match e {
            AdvanceError::StateBroken => say(2, 0),
            AdvanceError::NoSuchLength => say(4, 0),
            AdvanceError::WrongLength => say(7, 0),
            AdvanceError::RowDiffers { hops, element, row } => Said {
                number: 9,
                value: hops,
                element,
                level: row,
            },
            AdvanceError::LinkDiffers {
                hops,
                element,
                level,
            } => Said {
                number: 10,
                value: hops,
                element,
                level,
            },
            AdvanceError::DigestDiffers { hops } => say(11, hops),
        }
    }
}

impl From<KeyTooLong> for Said {
    ghost from_gives = { λ e s. Says s (refuses (handle_number (Err e))) };

    fn from(_e: KeyTooLong) -> Said {
        say(3, 0)
    }
}

impl From<ListRefused> for Said {
    ghost from_gives = { λ e s. Says s (refuses (root_number (Err e))) };

    fn from(_e: ListRefused) -> Said {
        say(14, 0)
    }
}

impl From<ProveError> for Said {
    ghost from_gives = { λ e s. Says s (prove.built_told (Err e)) };

    fn from(e: ProveError) -> Said {
        match e {
            ProveError::KeyTooLong => say(3, 0),
            ProveError::ListRefused => say(14, 0),
            ProveError::OtherKind => say(15, 0),
            ProveError::OutputShort => say(6, 0),
        }
    }
}

impl From<LookupError> for Said {
    ghost from_gives = { λ e s. Says s (refuses (verdict_number (Err e))) };

    #[tactic(auto, unfolding(lookup::specs::Told::verdict_number))]
    fn from(e: LookupError) -> Said {
        match e {
            LookupError::KeyTooLong => say(3, 0),
            LookupError::WrongLength => say(16, 0),
            LookupError::RootDiffers => say(17, 0),
        }
    }
}

impl From<SaveError> for Said {
    ghost from_gives = { λ e s. Says s (saved_told (Err e)) };

    fn from(e: SaveError) -> Said {
        match e {
            SaveError::StateBroken => say(2, 0),
            SaveError::OutputShort => say(6, 0),
        }
    }
}

impl From<FileError> for Said {
    ghost from_gives = { λ e s. Says s (refuses (reading_number (Err e))) };

    fn from(e: FileError) -> Said {
        match e {
            FileError::FileShort => say(18, 0),
            FileError::MarkWrong => say(19, 0),
            FileError::VersionWrong => say(20, 0),
            FileError::CountOver => say(21, 0),
            FileError::LengthWrong => say(22, 0),
            FileError::StateBroken => say(2, 0),
        }
    }
}

impl From<TooLong> for Said {
    ghost from_gives = { λ e s. Says s (refuses (coding_number (Err e))) };

    fn from(_e: TooLong) -> Said {
        say(3, 0)
    }
}

impl From<AddError> for Said {
    ghost from_gives = { λ e s. Says s (adding_told (Err e)) };

    fn from(e: AddError) -> Said {
        match e {
            AddError::TooLong => say(3, 0),
            AddError::OutputShort => say(6, 0),
            AddError::Closed => say(23, 0),
        }
    }
}

// With 24 goes the wrong entry.
impl From<CheckError> for Said {
    ghost from_gives = { λ e s. Says s (checked_told (Err e)) };

    fn from(e: CheckError) -> Said {
        match e {
            CheckError::Wrong { entry } => say(24, entry),
            CheckError::Unclosed => say(25, 0),
        }
    }
}

impl From<HashError> for Said {
    ghost from_gives = { λ e s. Says s (refuses (sha256.number_of (Err e))) };

    fn from(e: HashError) -> Said {
        match e {
            HashError::StateBroken => say(2, 0),
            HashError::TooLong => say(3, 0),
        }
    }
}
