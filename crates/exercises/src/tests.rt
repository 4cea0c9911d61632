mod adopting;
mod drafting;
mod ladders;
mod listing;
mod ranking;
mod rules;
mod searching;
mod slots;
