//! The audit of a history: whether events are a history, and whether its committed transactions, run one after
//! another in commit order, give the same replies. It is computed from the events alone, with no store.
#![tactic(auto)]

mod auditor;
mod commits;
mod dates;
mod epoch_fault;
mod epoch_history;
mod epoch_lines;
mod in_order;
mod in_order_fault;
mod in_turn;
mod laws;
mod order_tests;
mod write;

pub use auditor::audit;
pub use epoch_fault::EpochFault;
pub use epoch_history::EpochHistory;
pub use epoch_lines::write_epochs;
pub use history_judge::{Audit, AuditFault};
pub use in_order::audit_in_order;
pub use in_order_fault::{InOrderFault, OrderFault};
pub use in_turn::audit_epochs;
pub use laws::{
    audit_decides, audits_agree, epochs_decide, epochs_pass, in_order_decides, legal_orders_pass,
    runs_pass, serial_histories_pass, yes_is_serial, yes_is_serial_over,
};
pub use outputs::{Out, OutFault};
pub use write::write_audit;

pub mod worked;
pub mod worked_amounts;
