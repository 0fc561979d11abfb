// The updates of sort orders: which of them an update is, and the table after it.
ghost use Rattle.std.specs.Prelude.{◌≡◌, true, ◌≤◌};
ghost use Rattle.rules.specs.WellFormed.{orders_formed, update_formed};
ghost use Rattle.rules.specs.Layout.{read_sort_orders};
ghost use Rattle.rules.specs.Kinds.{is_tidy_update, read_kind, add_sort_order_kind, set_default_sort_order_kind};
ghost use Rattle.tables.specs.Laid.{LaidSchema, LaidOrders};
ghost use Rattle.order_updates.specs.Family.{orders_after, OrdersDecided};
ghost use Rattle.order_updates.specs.Orders.{NewOrder};

use crate::{add_sort_order, orders_after, set_default_sort_order};
use builder::builder::TableMetadataBuilder;
use builder::decision::Decision;
use records::schema::Schema;
use records::sort_order::SortOrders;
use records::update::{ADD_SORT_ORDER, TableUpdate};

// The schema is the current one.
pub fn decide(b: TableMetadataBuilder, s: Schema, t: SortOrders, u: TableUpdate) -> Decision
    requires laid_schema { LaidSchema s }
    requires laid_orders { LaidOrders t }
    requires t_value { orders_formed (read_sort_orders t) ≡ true }
    requires u_value { is_tidy_update u ≡ true }
    requires u_value_2 { update_formed (read_kind u) ≡ true }
    requires add_sort_order_kind_le_kind { (add_sort_order_kind ≤ u.kind) × (u.kind ≤ set_default_sort_order_kind) }
    ensures { OrdersDecided b s t u result }
{
    let kind = u.kind;
    if kind == ADD_SORT_ORDER {
        return add_sort_order(b, s, t, u);
    }
    set_default_sort_order(b, t, u)
}

// A new order is put into the table.
pub fn after(t: SortOrders, u: TableUpdate, d: Decision) -> SortOrders
    requires laid_orders { LaidOrders t }
    requires new_order { u.kind ≡ add_sort_order_kind → d.grows ≡ true → NewOrder t d.entry.sort_orders.added }
    ensures { result ≡ orders_after t u d }
{
    let kind = u.kind;
    if kind == ADD_SORT_ORDER {
        return orders_after(t, d);
    }
    t
}
