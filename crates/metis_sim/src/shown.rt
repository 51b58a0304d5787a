//! The lines of a configuration that is shown.
ghost use Rattle.std.specs.Prelude.{◌≡◌, ◌<◌, ◌∷◌, [], ◌++◌, IfOk, OnOk, codes, decimal, map, string_bytes};
ghost use Rattle.std.specs.List.{All};
ghost use Rattle.metis_universe.specs.Terms.{pair_count, port_count};
ghost use Rattle.metis_config.specs.Terms.{IsOver};
ghost use Rattle.metis_sim.specs.Replies.{binding_line, counts_line, instance_line, show_lines};

use metis_config::Config;
use metis_ids::{InstNo, Ix, NoMemory, PairIx, PortIx};
use metis_output::{Chain, Each, LineAt, Lines, Once};
use metis_universe::Universe;
use std::alloc::{AllocError, Global};

/// How many instances and bindings there are, each instance with its pair, and each binding.
pub type ShownLines<'a> = Chain<Once, Chain<Each<InstanceLines<'a>>, Each<BindingLines<'a>>>>;

/// The lines of this configuration. They keep what they need of it, so that it may change.
pub(crate) fn shown_lines<'a>(
    alloc: Global,
    u: &'a Universe,
    c: &Config,
) -> Result<ShownLines<'a>, NoMemory>
    requires { IsOver u.now c.now }
    ensures { IfOk result (λ l. ⟦<ShownLines<'a> as Lines>⟧.rest l ≡ show_lines u.now c.now) }
{
    let first = line_of_counts(alloc, c)?;
    let instances = instances_shown(alloc, u, c)?;
    let bindings = bindings_shown(alloc, u, c)?;
    Ok(Chain {
        first,
        second: Chain {
            first: Each::of(instances),
            second: Each::of(bindings),
        },
    })
}

fn line_of_counts(alloc: Global, c: &Config) -> Result<Once, AllocError>
    ensures { IfOk result (λ l. l ≡ counts_line c.now ∷ []) }
{
    Ok(Once::of(counts_line(alloc, c)?))
}

fn counts_line(alloc: Global, c: &Config) -> Result<String, AllocError>
    ensures { IfOk result (λ line. string_bytes line ≡ counts_line c.now) }
{
    let (instances, bindings) = (c.count(), c.bindings_count());
    format!(in alloc; "instances {instances} bindings {bindings}\n")
}

/// Instances with their pairs, a line for each.
#[derive(Drop)]
pub struct InstanceLines<'a> {
    universe: &'a Universe,
    instances: Vec<(InstNo, PairIx)>,
    ghost known: { All (λ e. e.1 < pair_count universe.now) instances.items },
}

// Those of the configuration.
fn instances_shown<'a>(
    alloc: Global,
    universe: &'a Universe,
    c: &Config,
) -> Result<InstanceLines<'a>, NoMemory>
    requires { IsOver universe.now c.now }
    ensures universe { IfOk result (λ l. l.universe.now ≡ universe.now) }
    ensures instances { IfOk result (λ l. l.instances.items ≡ c.now.instances) }
{
    c.keeps_invariant();
    let instances = instances_of(alloc, c)?;
    Ok(InstanceLines {
        universe,
        instances,
    })
}

fn instances_of(alloc: Global, c: &Config) -> Result<Vec<(InstNo, PairIx)>, NoMemory>
    ensures { IfOk result (λ v. v.items ≡ c.now.instances) }
{
    let mut list = Vec::new(alloc);
    for instance in c.instances() {
        list.push(instance)?;
    }
    Ok(list)
}

impl<'a> LineAt for InstanceLines<'a> {
    ghost lines = { λ l. map (instance_line l.universe.now) l.instances.items };

    fn count(&self) -> usize {
        self.instances.len()
    }

    fn set_line(&self, place: usize, line: &mut String) -> Result<(), AllocError> {
        self.universe.keeps_invariant();
        let (inst, pair) = self.instances[place];
        set_instance_line(line, self.universe, inst, pair)?;
        Ok(())
    }
}

fn set_instance_line(
    line: &mut String,
    u: &Universe,
    z: InstNo,
    pair: PairIx,
) -> Result<(), AllocError>
    requires { pair < pair_count u.now }
    ensures { OnOk result (string_bytes line.new ≡ instance_line u.now (z, pair)) }
{
    let (kind, state) = (u.type_name(u.type_of(pair)), u.state_name(pair));
    set_words(line, z.number(), kind, state)
}

fn set_words(line: &mut String, z: u32, kind: &str, state: &str) -> Result<(), AllocError>
    ensures { OnOk result (string_bytes line.new ≡ decimal z ++ (codes " " ++ ((kind.now ++ (codes ":" ++ state.now)) ++ codes "\n"))) }
{
    line.clear();
    write!(line, "{z} {kind}:{state}\n")
}

/// Bindings, a line for each.
#[derive(Drop)]
pub struct BindingLines<'a> {
    universe: &'a Universe,
    bindings: Vec<(PortIx, InstNo, InstNo)>,
    ghost known: { All (λ b. b.0 < port_count universe.now) bindings.items },
}

// Those of the configuration.
fn bindings_shown<'a>(
    alloc: Global,
    universe: &'a Universe,
    c: &Config,
) -> Result<BindingLines<'a>, NoMemory>
    requires { IsOver universe.now c.now }
    ensures universe { IfOk result (λ l. l.universe.now ≡ universe.now) }
    ensures bindings { IfOk result (λ l. l.bindings.items ≡ c.now.bindings) }
{
    let bindings = bindings_of(alloc, c)?;
    Ok(BindingLines { universe, bindings })
}

fn bindings_of(alloc: Global, c: &Config) -> Result<Vec<(PortIx, InstNo, InstNo)>, NoMemory>
    ensures { IfOk result (λ v. v.items ≡ c.now.bindings) }
{
    let mut list = Vec::new(alloc);
    for binding in c.bindings() {
        list.push(binding)?;
    }
    Ok(list)
}

impl<'a> LineAt for BindingLines<'a> {
    ghost lines = { λ l. map (binding_line l.universe.now) l.bindings.items };

    fn count(&self) -> usize {
        self.bindings.len()
    }

    fn set_line(&self, place: usize, line: &mut String) -> Result<(), AllocError> {
        self.universe.keeps_invariant();
        set_binding_line(line, self.universe, self.bindings[place])?;
        Ok(())
    }
}

fn set_binding_line(
    line: &mut String,
    u: &Universe,
    tie: (PortIx, InstNo, InstNo),
) -> Result<(), AllocError>
    requires { tie.0 < port_count u.now }
    ensures { OnOk result (string_bytes line.new ≡ binding_line u.now tie) }
{
    let (port, requirer, provider) = tie;
    set_ends(
        line,
        u.port_name(port),
        requirer.number(),
        provider.number(),
    )
}

fn set_ends(line: &mut String, port: &str, z: u32, y: u32) -> Result<(), AllocError>
    ensures { OnOk result (string_bytes line.new ≡ port.now ++ (codes " " ++ (decimal z ++ (codes " " ++ (decimal y ++ codes "\n"))))) }
{
    line.clear();
    write!(line, "{port} {z} {y}\n")
}
