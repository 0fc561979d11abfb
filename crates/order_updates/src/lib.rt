// Sort orders: adding, choosing the default one.
// Document 01, "Rules for each update", as the crate `rules` writes it in OrderUpdates.
#![tactic(auto)]

ghost use Rattle.std.specs.Prelude.{◌≡◌, true, false, cond, not, ◌&&◌};
ghost use Rattle.records.specs.Blanks.{no_sort_orders_part};
ghost use Rattle.rules.specs.Words.{eq_z, is_empty, highest as highestOf, put};
ghost use Rattle.rules.specs.Capacities.{largest_sort_order_id};
ghost use Rattle.rules.specs.Register.{Terms, State};
ghost use Rattle.rules.specs.WellFormed.{order_below, orders_formed, update_formed};
ghost use Rattle.rules.specs.OrderUpdates.{reused_order, order_ids, new_order_id, set_default_sort_order_checks, set_default_sort_order};
ghost use Rattle.rules.specs.Layout.{given, read_sort_order, read_sort_orders, laid_sort_orders};
ghost use Rattle.rules.specs.Kinds.{is_tidy_update, read_kind, of_kind, with_sort_orders_part, with_sort_order_id, add_sort_order_kind, set_default_sort_order_kind};
ghost use Rattle.tables.specs.Laid.{LaidSchema, LaidOrder, LaidOrders};
ghost use Rattle.builder.specs.Pieces.{laid_builder};
ghost use Rattle.builder.specs.Answers.{Answers, Decides};
ghost use Rattle.builder.specs.Added.{Numbered};
ghost use Rattle.order_updates.specs.Orders.{OrderGrown, OrderDecided, NewOrder};

use builder::builder::TableMetadataBuilder;
use builder::checks::choose;
use builder::choice::{choose_id, reuse_or_create_new_id};
use builder::decision::{Decision, decided};
use records::capacities::SORT_ORDERS;
use records::counters::SortOrderId;
use records::replies::{ACCEPTED, FIELD_NOT_IN_SCHEMA, IDS_EXHAUSTED, TABLE_FULL};
use records::schema::Schema;
use records::sort_order::{SortOrder, SortOrders};
use records::update::TableUpdate;
use search::Key;
use tables::keys::{order_id, order_key};
use tables::sort_orders::{find_equal, ids_of, is_unfit};

pub mod family;

// ---- add sort order

// The id that an added order gets: that of a held one with the same fields, if one is found, else the next, unless ids are exhausted.
#[derive(Clone, Copy)]
pub struct OrderNumbered {
    pub found: bool,
    pub exhausted: bool,
    pub is_last: bool,
    pub id: SortOrderId,
}

fn reuse_or_create_new_sort_id(
    t: SortOrders,
    o: SortOrder,
    has_last: bool,
    last: SortOrderId,
) -> OrderNumbered
    requires laid_orders { LaidOrders t }
    requires laid_order { LaidOrder o }
    ensures { Numbered (reused_order (read_sort_order o) (read_sort_orders t)) (not (is_empty (read_sort_order o).fields) && eq_z (highestOf (order_ids (read_sort_orders t))) largest_sort_order_id) (new_order_id (read_sort_order o) (read_sort_orders t)) (given has_last last.0) result.found result.exhausted result.is_last result.id.0 }
{
    let n = t.count;
    let m = o.count;
    let ids = ids_of(t);
    let i = find_equal(t, o);
    let k = order_key(last);
    let x = reuse_or_create_new_id(&ids[..n], i, Key(i64::MAX), has_last, k);
    let id = order_id(x.id);
    if !x.found & (m == 0) {
        return OrderNumbered {
            found: false,
            exhausted: false,
            is_last: false,
            id: SortOrderId(0),
        };
    }
    OrderNumbered {
        found: x.found,
        exhausted: x.exhausted,
        is_last: x.is_last,
        id,
    }
}

// The order is the one to log, and where the table grows the one to put.
#[derive(Clone, Copy)]
pub struct OrderAdded {
    pub number: u8,
    pub logs: bool,
    pub grows: bool,
    pub order: SortOrder,
    pub builder: TableMetadataBuilder,
}

fn order_addition(b: TableMetadataBuilder, t: SortOrders, s: Schema, o: SortOrder) -> OrderAdded
    requires laid_orders { LaidOrders t }
    requires t_value { orders_formed (read_sort_orders t) ≡ true }
    requires laid_schema { LaidSchema s }
    requires laid_order { LaidOrder o }
    ensures { OrderGrown b t s o result }
{
    let n = t.count;
    let x = reuse_or_create_new_sort_id(t, o, b.has_order, b.last_added_order_id);
    let found = x.found;
    let exhausted = x.exhausted;
    let id = x.id;
    let mut c = b;
    c.has_order = true;
    c.last_added_order_id = id;
    let mut y = o;
    y.order_id = id;
    if found {
        return OrderAdded {
            number: ACCEPTED,
            logs: !x.is_last,
            grows: false,
            order: y,
            builder: c,
        };
    }
    let unfit = is_unfit(o, s);
    let later = choose(n >= SORT_ORDERS, TABLE_FULL, ACCEPTED);
    let rest = choose(unfit, FIELD_NOT_IN_SCHEMA, later);
    let number = choose(exhausted, IDS_EXHAUSTED, rest);
    OrderAdded {
        number,
        logs: true,
        grows: number == ACCEPTED,
        order: y,
        builder: c,
    }
}

// ---- set default sort order

// The id is the one to log.
#[derive(Clone, Copy)]
pub struct OrderSet {
    pub number: u8,
    pub logs: bool,
    pub order_id: SortOrderId,
    pub builder: TableMetadataBuilder,
}

fn order_choice(b: TableMetadataBuilder, t: SortOrders, id: SortOrderId) -> OrderSet
    requires { LaidOrders t }
    ensures { (st : State) → b ≡ laid_builder st → t ≡ laid_sort_orders st.metadata.orders → Answers (set_default_sort_order_checks id.0 st) st (set_default_sort_order id.0 st) result.number result.logs result.builder (with_sort_orders_part (with_sort_order_id result.order_id no_sort_orders_part) (of_kind set_default_sort_order_kind)) }
{
    let mut f = b.fields;
    let n = t.count;
    let ids = ids_of(t);
    let asked = order_key(id);
    let last = order_key(b.last_added_order_id);
    let current = order_key(f.default_sort_order_id);
    let x = choose_id(asked, b.has_order, last, current, &ids[..n]);
    let chosen = order_id(x.id);
    let logged = order_id(x.logged);
    f.default_sort_order_id = chosen;
    let mut c = b;
    c.fields = f;
    OrderSet {
        number: x.number,
        logs: !x.unchanged,
        order_id: logged,
        builder: c,
    }
}

// ---- the updates of a list

pub fn add_sort_order(b: TableMetadataBuilder, s: Schema, t: SortOrders, u: TableUpdate) -> Decision
    requires laid_schema { LaidSchema s }
    requires laid_orders { LaidOrders t }
    requires t_value { orders_formed (read_sort_orders t) ≡ true }
    requires u_value { is_tidy_update u ≡ true }
    requires u_value_2 { update_formed (read_kind u) ≡ true }
    requires kind_value { u.kind ≡ add_sort_order_kind }
    ensures { OrderDecided b s t u result }
{
    let mut part = u.sort_orders;
    let x = order_addition(b, t, s, part.added);
    let y = x.order;
    let c = x.builder;
    part.added = y;
    let mut e = u;
    e.sort_orders = part;
    Decision {
        number: x.number,
        logs: x.logs,
        grows: x.grows,
        builder: c,
        entry: e,
    }
}

// The table after an addition: a new order is put into it.
pub fn orders_after(t: SortOrders, d: Decision) -> SortOrders
    requires laid_orders { LaidOrders t }
    requires new_order { d.grows ≡ true → NewOrder t d.entry.sort_orders.added }
    ensures { result ≡ cond d.grows (laid_sort_orders (put order_below (read_sort_order d.entry.sort_orders.added) (read_sort_orders t))) t }
{
    if d.grows {
        return tables::sort_orders::put(t, d.entry.sort_orders.added);
    }
    t
}

pub fn set_default_sort_order(b: TableMetadataBuilder, t: SortOrders, u: TableUpdate) -> Decision
    requires laid_orders { LaidOrders t }
    requires u_value { is_tidy_update u ≡ true }
    requires kind_value { u.kind ≡ set_default_sort_order_kind }
    ensures { (terms : Terms) (st : State) → b ≡ laid_builder st → t ≡ laid_sort_orders st.metadata.orders → Decides terms u st result }
{
    let mut part = u.sort_orders;
    let x = order_choice(b, t, part.chosen);
    let c = x.builder;
    let id = x.order_id;
    part.chosen = id;
    let mut e = u;
    e.sort_orders = part;
    decided(x.number, x.logs, c, e)
}
