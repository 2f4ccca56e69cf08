//! Reading a configuration.
ghost use Rattle.std.specs.Prelude.{◌≡◌, Ok, Err, IfOk, IfErr, false};
ghost use Rattle.serde_json.specs.View.{view, members_view};
ghost use Rattle.mdcc_base.specs.AreQuorums.{AreQuorums};
ghost use Rattle.mdcc_base.specs.Unless.{GivesUnless};
ghost use Rattle.mdcc_option.specs.Bounds.{IsSchema};
ghost use Rattle.mdcc_config.specs.Names.{wrong_name};
ghost use Rattle.mdcc_config.specs.IsConfig.{AreInRange, IsConfig};
ghost use Rattle.mdcc_config.specs.Configuration.{is_config_memory, object_of, refused_name, cluster_of, config_with, config_in, config_of};

use crate::addresses::addresses_of;
use crate::fields::fields_of;
use crate::names::wrong_name;
use crate::settings::{Settings, settings_of};
use crate::{Config, ConfigFault, Name};
use mdcc_base::Quorums;
use mdcc_option::{Cluster, Schema};
use serde_json::{Map, Value};
use std::alloc::Global;

// The value that a text is in JSON.
fn value_of(alloc: Global, text: &[u8]) -> Result<Value, ConfigFault>
    ensures ok { IfOk result (λ value. object_of text.now ≡ Ok (view value)) }
    ensures err { IfErr result (λ fault. is_config_memory fault ≡ false → object_of text.now ≡ Err fault) }
{
    match Value::from_slice(alloc, text) {
        Ok(value) => Ok(value),
        Err(error) if error.is_memory() => Err(ConfigFault::Memory),
        Err(_) => Err(ConfigFault::Json),
    }
}

// Refuses members of which one is missing or unknown.
fn check_names(alloc: Global, members: &Map<String, Value>) -> Result<(), ConfigFault>
    ensures { GivesUnless is_config_memory result (refused_name (wrong_name (members_view members.now.entries))) }
{
    match wrong_name(members) {
        Some(name) => Err(ConfigFault::Member(Name::new(alloc, name)?)),
        None => Ok(()),
    }
}

// The cluster of members in their ranges.
fn cluster_of(settings: &Settings) -> Result<Cluster, ConfigFault>
    ensures value { result ≡ cluster_of settings.now }
    ensures quorums { IfOk result (λ cluster. AreQuorums cluster.quorums) }
    ensures schema { IfOk result (λ cluster. IsSchema cluster.schema) }
{
    let quorums = Quorums::new(settings.centres, settings.classic, settings.fast)?;
    let schema = Schema::new(settings.bounds.as_slice())?;
    Ok(Cluster {
        quorums,
        schema,
        gamma: settings.gamma,
        cells: settings.cells,
        limit: settings.limit,
    })
}

// The configuration of members in their ranges.
fn config_with(alloc: Global, settings: &Settings) -> Result<Config, ConfigFault>
    requires { AreInRange settings.now }
    ensures value { GivesUnless is_config_memory result (config_with settings.now) }
    ensures meets { IfOk result IsConfig }
{
    let cluster = cluster_of(settings)?;
    let addresses = addresses_of(
        alloc,
        settings.centres,
        settings.port,
        settings.hosts.as_slice(),
    )?;
    Ok(Config {
        cluster,
        addresses,
        port: settings.port,
        wait: settings.wait,
        checkpoint: settings.checkpoint,
    })
}

// The configuration that a JSON value is.
fn config_in(alloc: Global, value: &Value) -> Result<Config, ConfigFault>
    ensures value { GivesUnless is_config_memory result (config_in (view value.now)) }
    ensures meets { IfOk result IsConfig }
{
    let Some(members) = value.as_object() else {
        return Err(ConfigFault::Json);
    };
    check_names(alloc, members)?;
    let fields = fields_of(alloc, value)?;
    let settings = settings_of(alloc, fields)?;
    config_with(alloc, &settings)
}

/// The configuration that a JSON text is.
pub fn read_config(alloc: Global, text: &[u8]) -> Result<Config, ConfigFault>
    ensures value { GivesUnless is_config_memory result (config_of text.now) }
    ensures meets { IfOk result IsConfig }
{
    let value = value_of(alloc, text)?;
    config_in(alloc, &value)
}
