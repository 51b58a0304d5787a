//! Spells a universe as JSON, token by token.
ghost use Rattle.std.specs.Prelude.{◌≡◌, ◌<◌, [], ◌∷◌, ◌++◌, codes, map, string_bytes, OnOk, IfOk};
ghost use Rattle.std.specs.List.{All};
ghost use Rattle.json.specs.Token.{key, string};
ghost use Rattle.serde_json.specs.Data.{string as text};
ghost use Rattle.metis_universe.specs.Terms.{pair_at, pair_count, port_count, port_name_of, required_of, state_name_of, states_of_type, type_count};
ghost use Rattle.metis_ujson.specs.Terms.{Adds, canonical, document_of, list_of, need_row, need_value, rows_of_universe, state_row, state_value, tokens_of, type_row, type_value};

use json::Writer;
use metis_ids::{PairIx, PortIx, TypeIx};
use metis_universe::Universe;
use std::alloc::{AllocError, Global};

/// The document of the universe, with a line feed at its end.
pub fn text_of(alloc: Global, u: &Universe) -> Result<String, AllocError>
    ensures { IfOk result (λ text. string_bytes text ≡ canonical u.now) }
{
    let mut out = Writer::new(Vec::new(alloc));
    put_document(&mut out, u)?;
    match String::from_utf8(out.into_inner()) {
        Ok(document) => with_feed(document),
        Err(_) => unreachable!(),
    }
}

// The text with a line feed behind it.
fn with_feed(text: String) -> Result<String, AllocError>
    ensures { IfOk result (λ line. string_bytes line ≡ string_bytes text ++ codes "\n") }
{
    let mut line = text;
    line.push_str("\n")?;
    Ok(line)
}

fn put_document(out: &mut Writer, u: &Universe) -> Result<(), AllocError>
    ensures { OnOk result (Adds out.old out.new (tokens_of (document_of u.now.version (rows_of_universe u.now)))) }
{
    out.begin_object()?;
    out.key("aeolus")?;
    out.u64(u64::from(u.version()))?;
    out.key("types")?;
    put_types(out, u)?;
    out.end_object()
}

fn put_types(out: &mut Writer, u: &Universe) -> Result<(), AllocError>
    ensures { OnOk result (Adds out.old out.new (tokens_of (list_of type_value (rows_of_universe u.now)))) }
{
    out.begin_array()?;
    for t in 0..u.types() {
        put_type(out, u, TypeIx(t))?;
    }
    out.end_array()
}

fn put_type(out: &mut Writer, u: &Universe, t: TypeIx) -> Result<(), AllocError>
    requires { t < type_count u.now }
    ensures { OnOk result (Adds out.old out.new (tokens_of (type_value (type_row u.now t)))) }
{
    out.begin_object()?;
    put_text(out, "initial", u.state_name(u.initial(t)))?;
    put_text(out, "name", u.type_name(t))?;
    out.key("states")?;
    put_states(out, u, t)?;
    out.end_object()
}

// A member whose value is a text.
fn put_text(out: &mut Writer, name: &str, text: &str) -> Result<(), AllocError>
    ensures { OnOk result (Adds out.old out.new (key name.now ∷ string text.now ∷ [])) }
{
    out.key(name)?;
    out.string(text)
}

// The states of the type, whose pairs stand together.
fn put_states(out: &mut Writer, u: &Universe, t: TypeIx) -> Result<(), AllocError>
    requires { t < type_count u.now }
    ensures { OnOk result (Adds out.old out.new (tokens_of (list_of state_value (map (state_row u.now) (states_of_type u.now t))))) }
{
    u.keeps_invariant();
    let first = u.first_of(t).0;
    out.begin_array()?;
    for place in 0..u.states(t) {
        put_state(out, u, PairIx(first + place))?;
    }
    out.end_array()
}

fn put_state(out: &mut Writer, u: &Universe, p: PairIx) -> Result<(), AllocError>
    requires { p < pair_count u.now }
    ensures { OnOk result (Adds out.old out.new (tokens_of (state_value (state_row u.now (pair_at u.now p))))) }
{
    out.begin_object()?;
    put_text(out, "name", u.state_name(p))?;
    out.key("next")?;
    put_state_names(out, u, u.next(p))?;
    out.key("provide")?;
    put_port_names(out, u, u.provided(p))?;
    out.key("require")?;
    put_needs(out, u, p)?;
    out.end_object()
}

fn put_state_names(out: &mut Writer, u: &Universe, pairs: &[PairIx]) -> Result<(), AllocError>
    requires { All (λ p. p < pair_count u.now) pairs.now }
    ensures { OnOk result (Adds out.old out.new (tokens_of (list_of text (map (state_name_of u.now) pairs.now)))) }
{
    out.begin_array()?;
    for pair in pairs {
        out.string(u.state_name(*pair))?;
    }
    out.end_array()
}

fn put_port_names(out: &mut Writer, u: &Universe, ports: &[PortIx]) -> Result<(), AllocError>
    requires { All (λ r. r < port_count u.now) ports.now }
    ensures { OnOk result (Adds out.old out.new (tokens_of (list_of text (map (port_name_of u.now) ports.now)))) }
{
    out.begin_array()?;
    for port in ports {
        out.string(u.port_name(*port))?;
    }
    out.end_array()
}

// An entry for each port that the pair requires.
fn put_needs(out: &mut Writer, u: &Universe, p: PairIx) -> Result<(), AllocError>
    requires { p < pair_count u.now }
    ensures { OnOk result (Adds out.old out.new (tokens_of (list_of need_value (map (need_row u.now (pair_at u.now p)) (required_of u.now p))))) }
{
    out.begin_array()?;
    for (place, port) in u.requires_(p).iter().enumerate() {
        put_need(out, u.port_name(*port), u.demand_at(p, place))?;
    }
    out.end_array()
}

// The port's name where it asks for one provider, else an object.
fn put_need(out: &mut Writer, port: &str, count: u32) -> Result<(), AllocError>
    ensures { OnOk result (Adds out.old out.new (tokens_of (need_value (record { port = port.now; count = count })))) }
{
    if count == 1 {
        return out.string(port);
    }
    out.begin_object()?;
    out.key("count")?;
    out.u64(u64::from(count))?;
    put_text(out, "port", port)?;
    out.end_object()
}
