// Sort orders.
use records::capacities::{SORT_FIELDS, SORT_ORDERS};
use records::counters::{FieldId, SortOrderId};
use records::sort_order::{SortField, SortOrder, SortOrders};
use tokens::field::{read_count, read_i32, read_i64, read_u8};
use tokens::input::Input;

fn read_sort_field(input: &mut Input) -> SortField {
    let source_id = read_i32(input);
    let direction = read_u8(input);
    let null_order = read_u8(input);
    SortField {
        source_id: FieldId(source_id),
        direction,
        null_order,
    }
}

pub fn read_sort_order(input: &mut Input) -> SortOrder {
    let mut order = SortOrder::blank();
    let id = SortOrderId(read_i64(input));
    let count = read_count(input);
    for i in 0..count {
        if !input.is_good() {
            break;
        }
        let field = read_sort_field(input);
        if i < SORT_FIELDS {
            order.items[i] = field;
        }
    }
    order.order_id = id;
    order.count = count;
    order
}

pub fn read_sort_orders(input: &mut Input) -> SortOrders {
    let mut table = SortOrders::blank();
    let count = read_count(input);
    for i in 0..count {
        if !input.is_good() {
            break;
        }
        let order = read_sort_order(input);
        if i < SORT_ORDERS {
            table.items[i] = order;
        }
    }
    table.count = count;
    table
}
