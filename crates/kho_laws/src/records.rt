//! Laws of the record frames: what is written for sessions keeps the rules of records.

ghost use Rattle.kho_laws.specs.Sessions.{RecordsKeepRules};

/// The records of sessions that can be carried keep the rules of records, where they are written into enough frames, no
/// two of which are the same. Nothing is done.
pub fn law_of_records()
    ensures { RecordsKeepRules }
{}
