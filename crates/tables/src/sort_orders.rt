// The table of sort orders.
ghost use Rattle.std.specs.Prelude.{◌≡◌, ℕ, ◌≤◌, ◌<◌, true, false, not, ◌∷◌, ◌++◌, pos, get_or, take, drop};
ghost use Rattle.std.proofs.Math.Option.{some};
ghost use Rattle.std.specs.Int.{w64};
ghost use Rattle.std.proofs.Common.{SFits};
ghost use Rattle.rules.specs.Words.{put as putBy, any, first, is_in, same_list};
ghost use Rattle.rules.specs.Capacities.{sort_order_room};
ghost use Rattle.rules.specs.WellFormed.{order_below, has_order, field_ids};
ghost use Rattle.rules.specs.OrderUpdates.{holds_order, same_sort_field, order_ids};
ghost use Rattle.rules.specs.Layout.{pad, read_schema, read_sort_order, read_sort_orders, laid_sort_orders};
ghost use Rattle.search.specs.Places.{index_of};
ghost use Rattle.tables.specs.Laid.{LaidSchema, LaidOrder, LaidOrders};

use crate::keys::{field_key, order_key};
use crate::runs::{holds_key, insert, keys_of, place_of, position_of};
use equality::read::same_sort_fields;
use records::capacities::SORT_ORDERS;
use records::counters::SortOrderId;
use records::schema::Schema;
use records::sort_order::{SortOrder, SortOrders};

pub fn ids_of(t: SortOrders) -> [i64; SORT_ORDERS]
    requires { LaidOrders t }
    ensures value { result ≡ pad sort_order_room (pos 0) (order_ids (read_sort_orders t)) }
    ensures by_index { (k : ℕ) → SFits w64 (get_or result k (pos 0)) }
{
    keys_of(&t.items[..t.count])
}

pub fn holds(t: SortOrders, id: SortOrderId) -> bool
    requires { LaidOrders t }
    ensures { result ≡ holds_order (read_sort_orders t) id.0 }
{
    holds_key(&t.items[..t.count], order_key(id))
}

pub fn get(t: SortOrders, id: SortOrderId) -> SortOrder
    requires laid_orders { LaidOrders t }
    requires id_value { holds_order (read_sort_orders t) id.0 ≡ true }
    ensures t_value { first (has_order id.0) (read_sort_orders t) ≡ some (read_sort_order result) }
    ensures laid_order { LaidOrder result }
{
    t.items[position_of(&t.items[..t.count], order_key(id))]
}

pub fn find_equal(t: SortOrders, o: SortOrder) -> usize
    requires laid_orders { LaidOrders t }
    requires laid_order { LaidOrder o }
    ensures { result ≡ index_of (λ x. same_list same_sort_field x.fields (read_sort_order o).fields) (read_sort_orders t) }
{
    for (i, held) in t.items[..t.count].iter().enumerate() {
        if same_sort_fields(*held, o) {
            return i;
        }
    }
    t.count
}

// The order names a field that is not the schema's.
pub fn is_unfit(o: SortOrder, s: Schema) -> bool
    requires laid_order { LaidOrder o }
    requires laid_schema { LaidSchema s }
    ensures { result ≡ any (λ f. not (is_in (field_ids (read_schema s)) f.source)) (read_sort_order o).fields }
{
    for f in &o.items[..o.count] {
        if !holds_key(&s.items[..s.count], field_key(f.source_id)) {
            return true;
        }
    }
    false
}

pub fn put(t: SortOrders, o: SortOrder) -> SortOrders
    requires laid_orders { LaidOrders t }
    requires laid_order { LaidOrder o }
    requires count_bound { t.count < 16 }
    requires order_id_value { holds_order (read_sort_orders t) o.order_id.0 ≡ false }
    ensures { result ≡ laid_sort_orders (putBy order_below (read_sort_order o) (read_sort_orders t)) }
{
    let at = place_of(&t.items[..t.count], order_key(o.order_id));
    let mut longer = t;
    insert(&mut longer.items, t.count, at, o);
    longer.count += 1;
    longer
}
