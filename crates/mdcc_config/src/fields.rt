//! The members of a configuration, each read as its kind.
ghost use Rattle.std.specs.Prelude.{◌≡◌, Some, Ok, Err, IfOk, IfErr, false};
ghost use Rattle.serde_json.specs.Find.{get, as_array};
ghost use Rattle.serde_json.specs.View.{view, items_view};
ghost use Rattle.mdcc_base.specs.Unless.{GivesUnless};
ghost use Rattle.mdcc_option.specs.declared.cluster.FastLimit as FastLimit;
ghost use Rattle.mdcc_config.specs.declared.faults.MemberName.TheVariants as Member;
ghost use Rattle.mdcc_config.specs.Names.{name_text};
ghost use Rattle.mdcc_config.specs.Readings.{natural, pair, host, limit};
ghost use Rattle.mdcc_config.specs.Configuration.{is_config_memory, member_as, given_or, list_as, fields_of};

use crate::lists::{hosts_of, pairs_of};
use crate::values::{limit, natural};
use crate::{ConfigFault, MemberName};
use mdcc_base::HeapList;
use mdcc_option::FastLimit;
use serde_json::Value;
use std::alloc::Global;

// How many cells a node has where no member says them.
const DEFAULT_CELLS: u64 = 1_048_576;

// How many milliseconds a receive waits at most where no member says it.
const DEFAULT_WAIT: u64 = 20;

// After how many frames a checkpoint of a log is due where no member says it.
const DEFAULT_CHECKPOINT: u64 = 1024;

/// What the members are read as; none where a value is outside its range.
#[derive(Drop)]
pub struct Fields {
    pub centres: Option<u64>,
    pub classic: Option<u64>,
    pub fast: Option<u64>,
    pub gamma: Option<u64>,
    pub bounds: HeapList<Option<(i64, i64)>>,
    pub hosts: HeapList<Option<[u8; 4]>>,
    pub port: Option<u64>,
    pub cells: Option<u64>,
    pub limit: Option<FastLimit>,
    pub wait: Option<u64>,
    pub checkpoint: Option<u64>,
}

// The number that a member is.
fn number_of(object: &Value, name: MemberName) -> Result<Option<u64>, ConfigFault>
    ensures { result ≡ member_as natural name (view object.now) }
{
    object
        .get(name.text())
        .and_then(natural)
        .ok_or(ConfigFault::Kind(name))
}

// The entries of a list that a member is.
fn entries_of(object: &Value, name: MemberName) -> Result<&[Value], ConfigFault>
    ensures ok { IfOk result (λ entries. member_as as_array name (view object.now) ≡ Ok (items_view entries.now)) }
    ensures err { IfErr result (λ fault. member_as as_array name (view object.now) ≡ Err fault) }
    ensures kind { IfErr result (λ fault. is_config_memory fault ≡ false) }
{
    match object.get(name.text()).and_then(Value::as_array) {
        Some(list) => Ok(list.as_slice()),
        None => Err(ConfigFault::Kind(name)),
    }
}

// The pairs of the member `bounds`.
fn bounds_in(alloc: Global, object: &Value) -> Result<HeapList<Option<(i64, i64)>>, ConfigFault>
    ensures { GivesUnless is_config_memory result (list_as pair Member.Bounds (view object.now)) }
{
    pairs_of(alloc, entries_of(object, MemberName::Bounds)?)
}

// The hosts of the member `hosts`.
fn hosts_in(alloc: Global, object: &Value) -> Result<HeapList<Option<[u8; 4]>>, ConfigFault>
    ensures { GivesUnless is_config_memory result (list_as host Member.Hosts (view object.now)) }
{
    hosts_of(alloc, entries_of(object, MemberName::Hosts)?)
}

// The number that a member is which may be left out.
fn number_or(object: &Value, name: MemberName, absent: u64) -> Result<Option<u64>, ConfigFault>
    ensures { result ≡ given_or (Some absent) natural name (get (name_text name) (view object.now)) }
{
    match object.get(name.text()) {
        Some(value) => natural(value).ok_or(ConfigFault::Kind(name)),
        None => Ok(Some(absent)),
    }
}

// The member `limit`, which may be left out.
fn limit_in(object: &Value) -> Result<Option<FastLimit>, ConfigFault>
    ensures { result ≡ given_or (Some FastLimit.Safe) limit Member.Limit (get (name_text Member.Limit) (view object.now)) }
{
    match object.get(MemberName::Limit.text()) {
        Some(value) => limit(value).ok_or(ConfigFault::Kind(MemberName::Limit)),
        None => Ok(Some(FastLimit::Safe)),
    }
}

/// The members of an object, each read as its kind.
pub(crate) fn fields_of(alloc: Global, object: &Value) -> Result<Fields, ConfigFault>
    ensures { GivesUnless is_config_memory result (fields_of (view object.now)) }
{
    let centres = number_of(object, MemberName::Centres)?;
    let classic = number_of(object, MemberName::Classic)?;
    let fast = number_of(object, MemberName::Fast)?;
    let gamma = number_of(object, MemberName::Gamma)?;
    let bounds = bounds_in(alloc, object)?;
    let hosts = hosts_in(alloc, object)?;
    let port = number_of(object, MemberName::Port)?;
    let cells = number_or(object, MemberName::Cells, DEFAULT_CELLS)?;
    let limit = limit_in(object)?;
    let wait = number_or(object, MemberName::Wait, DEFAULT_WAIT)?;
    let checkpoint = number_or(object, MemberName::Checkpoint, DEFAULT_CHECKPOINT)?;
    Ok(Fields {
        centres,
        classic,
        fast,
        gamma,
        bounds,
        hosts,
        port,
        cells,
        limit,
        wait,
        checkpoint,
    })
}
